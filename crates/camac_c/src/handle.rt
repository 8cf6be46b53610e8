// A session behind one handle: its run borrows the checked script that the session owns too.

ghost use Rattle.std.specs.Prelude.{◌≡◌, Option, None, Some, IfNone, IfOk, IfErr};
ghost use Rattle.camac_c.specs.Owned.{session_owns, held_coded};
ghost use Rattle.camac_c.specs.declared.session.Session.{Session};
ghost use Rattle.camac_c.specs.Talk.{Asks, StartsOn, Talks, Holds};

use crate::loose::Loose;
use crate::plain::{MISUSE, SessionAsk, Told, only_code};
use crate::session::{Session, finish, start, step};
use camac_rules::Checked;
use std::alloc::Global;
use std::marker::Model;

/// What C sees of what lies behind a pointer.
#[repr(C)]
#[derive(Drop)]
pub struct Hidden {
    unused: u8,
}

/// A session, or none, which C starts as zeros.
#[repr(C)]
pub struct Handle {
    run: *mut Hidden,
    script: *mut Hidden,
    alloc: Global,
    pub ghost value: { Option Session } by { held_coded },
}

impl Model for Handle {
    ghost also_owns = { λ h. session_owns h.alloc h.run h.script h.value };
}

impl Handle {
    /// The handle of no session.
    pub fn none(alloc: Global) -> Handle
        ensures { result.value ≡ None }
    {
        Handle {
            run: std::ptr::null_mut(),
            script: std::ptr::null_mut(),
            alloc,
        }
    }

    /// A session at the beginning of the run of a script, or the script back where there is no memory.
    pub fn begin(script: Loose<Checked, Global>) -> Result<Handle, Loose<Checked, Global>>
        ensures ok { IfOk result (λ h. Holds h.value (StartsOn script.value)) }
        ensures err { IfErr result (λ l. l.value ≡ script.value) }
    {
        let Loose { at, alloc } = script;
        match start(alloc, unsafe { &*at }) {
            Ok(run) => {
                let Loose { at: run, alloc } = run;
                Ok(Handle {
                    run: run as *mut Hidden,
                    script: at as *mut Hidden,
                    alloc,
                })
            }
            Err(alloc) => Err(Loose { at, alloc }),
        }
    }

    /// Asks the run, which tells it, and writes to `bytes` where it is asked for that. Where there is none, `told` stays.
    #[inline(always)]
    pub fn talk(self, ask: SessionAsk, told: &mut Told, bytes: &mut [u8]) -> Handle
        ensures { Talks self.value ask told.old result.value bytes.old bytes.new told.new }
    {
        let Handle { run, script, alloc } = self;
        if run.is_null() {
            Handle { run, script, alloc }
        } else {
            let Loose { at, alloc } = step(
                Loose {
                    at: run as *mut Session,
                    alloc,
                },
                ask,
                told,
                bytes,
            );
            Handle {
                run: at as *mut Hidden,
                script,
                alloc,
            }
        }
    }

    /// Asks the run. Where there is none, `told` stays.
    #[inline(always)]
    pub fn tell(&mut self, alloc: Global, ask: SessionAsk, told: &mut Told, bytes: &mut [u8])
        ensures { Talks self.old.value ask told.old self.new.value bytes.old bytes.new told.new }
    {
        let held = std::mem::replace(self, Handle::none(alloc));
        let next = held.talk(ask, told, bytes);
        // what stood there meanwhile is none: to drop it would be a test of each call
        std::mem::forget(std::mem::replace(self, next));
    }

    /// Asks the run, where there is one, else tells `MISUSE`.
    #[inline(always)]
    pub fn ask(&mut self, alloc: Global, ask: SessionAsk, bytes: &mut [u8]) -> Told
        ensures { Asks self.old.value ask self.new.value bytes.old bytes.new result }
    {
        let mut told = only_code(MISUSE);
        self.tell(alloc, ask, &mut told, bytes);
        told
    }

    /// Ends the run, and gives the script back.
    fn end(self) -> Option<Loose<Checked, Global>>
        ensures none { IfNone result (self.value ≡ None) }
    {
        let Handle { run, script, alloc } = self;
        if run.is_null() {
            None
        } else {
            let alloc = finish(Loose {
                at: run as *mut Session,
                alloc,
            });
            Some(Loose {
                at: script as *mut Checked,
                alloc,
            })
        }
    }
}

impl Drop for Handle {
    fn drop(self) {
        match self.end() {
            None => {}
            Some(script) => drop(script.into_box()),
        }
    }
}
