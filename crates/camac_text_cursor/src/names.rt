// Names among those that were declared.

ghost use Rattle.std.specs.Prelude.{◌≡◌, map, bytes_eq};
ghost use Rattle.std.specs.List.{position_from};
ghost use Rattle.camac_lang.specs.Tests.{is_new};
ghost use Rattle.camac_lang.specs.View.{lam_of, procedure_of, table_of};
ghost use Rattle.camac_text_cursor.specs.Names.{name_place, lam_place, table_place, procedure_place};

use camac_lang::{Lam, Name, Procedure, Table};
use camac_tokens::are_same;

/// The first place of a name.
pub fn name_place(names: &[Name], name: &Name) -> Option<usize>
    ensures { result ≡ name_place name.now names.now }
{
    names.iter().position(|known| is_same(known, name))
}

/// The first place of a LAM with this name.
pub fn lam_place(lams: &[Lam], name: &Name) -> Option<usize>
    ensures { result ≡ lam_place name.now (map lam_of lams.now) }
{
    lam_position(lams, name)
}

// The same over the parser's own LAMs, whose views the clause above takes. So for tables and procedures below.
fn lam_position(lams: &[Lam], name: &Name) -> Option<usize>
    ensures { result ≡ position_from (λ l. bytes_eq name.now l.name) 0 lams.now }
{
    lams.iter().position(|lam| is_same(&lam.name, name))
}

/// The first place of a table with this name.
pub fn table_place(tables: &[Table], name: &Name) -> Option<usize>
    ensures { result ≡ table_place name.now (map table_of tables.now) }
{
    table_position(tables, name)
}

fn table_position(tables: &[Table], name: &Name) -> Option<usize>
    ensures { result ≡ position_from (λ t. bytes_eq name.now t.name) 0 tables.now }
{
    tables.iter().position(|table| is_same(&table.name, name))
}

/// The first place of a procedure with this name.
pub fn procedure_place(procedures: &[Procedure], name: &Name) -> Option<usize>
    ensures { result ≡ procedure_place name.now (map procedure_of procedures.now) }
{
    procedure_position(procedures, name)
}

fn procedure_position(procedures: &[Procedure], name: &Name) -> Option<usize>
    ensures { result ≡ position_from (λ p. bytes_eq name.now p.name) 0 procedures.now }
{
    procedures
        .iter()
        .position(|procedure| is_same(&procedure.name, name))
}

fn is_same(known: &Name, name: &Name) -> bool
    ensures { result ≡ bytes_eq name.now known.now }
{
    are_same(name.as_bytes(), known.as_bytes())
}

/// Whether a name is none of these.
pub fn is_new(names: &[Name], name: &Name) -> bool
    ensures { result ≡ is_new name.now names.now }
{
    match name_place(names, name) {
        Some(_) => false,
        None => true,
    }
}
