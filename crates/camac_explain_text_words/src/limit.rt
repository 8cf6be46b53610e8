// The limits of the language, in words.

ghost use Rattle.std.specs.Prelude.{◌≡◌, IfOk, map, string_bytes};
ghost use Rattle.camac_explain_text_words.specs.Forms.{limit_in, limit_table, limit_text, limit_of, row_text};

use camac_lang::limits;
use camac_lines::Quote;
use camac_sentence::{Part, fill};
use camac_tokens::Limit;
use std::alloc::{AllocError, Global};

// A limit, what stands before its number, the number, and what stands behind it.
type Row = (Limit, &'static str, usize, &'static str);

const PASSED: &str = "The limit is passed at %: % % %.";

const OPEN: &str = "brackets and braces are open at once, calls counted";

static LIMITS: [Row; 14] = [
    (
        Limit::NameBytes,
        "a name has at most",
        limits::NAME_BYTES,
        "bytes",
    ),
    (
        Limit::Tables,
        "a script has at most",
        limits::TABLES,
        "tables",
    ),
    (
        Limit::TableWords,
        "a table has at most",
        limits::TABLE_WORDS,
        "words",
    ),
    (Limit::Lams, "a script has at most", limits::LAMS, "LAMs"),
    (
        Limit::Variables,
        "a script has at most",
        limits::VARIABLES,
        "variables and parameters",
    ),
    (
        Limit::Procedures,
        "a script has at most",
        limits::PROCEDURES,
        "procedures",
    ),
    (
        Limit::Parameters,
        "a procedure has at most",
        limits::PARAMETERS,
        "parameters",
    ),
    (
        Limit::Services,
        "a script has at most",
        limits::SERVICES,
        "services",
    ),
    (
        Limit::Registers,
        "a service with all procedures has at most",
        limits::REGISTERS,
        "registers",
    ),
    (
        Limit::Statements,
        "a script has at most",
        limits::STATEMENTS as usize,
        "statements in all",
    ),
    (
        Limit::Operators,
        "an expression has at most",
        limits::OPERATORS as usize,
        "operators",
    ),
    (
        Limit::Parts,
        "a condition has at most",
        limits::CONDITION_PARTS,
        "parts",
    ),
    (Limit::Depth, "at most", limits::DEPTH, OPEN),
    (Limit::CallDepth, "at most", limits::DEPTH, OPEN),
];

#[tactic(auto, unfolding(crate::specs::Forms::limit_table))]
fn limit_table() -> &'static [Row]
    ensures { map limit_of result.now ≡ limit_table }
{
    &LIMITS
}

/// The limit that is passed at a token.
pub fn limit_told(alloc: Global, token: &[u8], limit: Limit) -> Result<String, AllocError>
    ensures { IfOk result (λ s. string_bytes s ≡ limit_text token.now limit) }
{
    limit_in(alloc, token, limit, limit_table())
}

fn limit_in(alloc: Global, token: &[u8], limit: Limit, rows: &[Row]) -> Result<String, AllocError>
    ensures { IfOk result (λ s. string_bytes s ≡ limit_in token.now limit (map limit_of rows.now)) }
{
    'rows: for row in rows {
        if row.0 == limit {
            return row_told(alloc, token, *row);
        }
    }
    Ok(String::new(alloc))
}

fn row_told(alloc: Global, token: &[u8], row: Row) -> Result<String, AllocError>
    ensures { IfOk result (λ s. string_bytes s ≡ row_text token.now (limit_of row.entry)) }
{
    let (_, before, most, behind) = row;
    let token = Part::Quoted(Quote(token));
    let (before, behind) = (Part::Word(before), Part::Word(behind));
    fill(alloc, PASSED, &[token, before, Part::Count(most), behind])
}
