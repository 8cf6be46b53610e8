// The numbers of headings, changed in place.

ghost use Rattle.std.specs.Prelude.{◌≡◌, ◌<◌, length};
ghost use Rattle.camac_lang.specs.Headings.{annotate, annotate_service, changed_at, unannotated};

use crate::script::Script;

impl Script {
    /// Puts these most cycles, event words and steps into the heading of the procedure of this number, from 0. All else stays.
    pub fn annotate_procedure(&mut self, i: usize, cycles: u32, words: u32, steps: u32)
        requires { i < length self.old.procedures }
        ensures { self.new ≡ record self.old { procedures = changed_at i (annotate cycles words steps) self.old.procedures } }
    {
        let procedure = &mut self.procedures[i];
        procedure.cycles = cycles;
        procedure.words = words;
        procedure.steps = steps;
    }

    /// Puts these most cycles and event words into the heading of the service of this number, from 0. All else stays.
    pub fn annotate_service(&mut self, i: usize, cycles: u32, words: u32)
        requires { i < length self.old.services }
        ensures { self.new ≡ record self.old { services = changed_at i (annotate_service cycles words) self.old.services } }
    {
        let service = &mut self.services[i];
        service.cycles = cycles;
        service.words = words;
    }

    /// Puts 0 in the place of each number of the headings. All else stays.
    pub fn unannotate(&mut self)
        ensures { self.new ≡ unannotated self.old }
    {
        'procedures: for i in 0..self.procedures.len() {
            self.annotate_procedure(i, 0, 0, 0);
        }
        'services: for i in 0..self.services.len() {
            self.annotate_service(i, 0, 0);
        }
    }
}
