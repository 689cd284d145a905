//! Parts that are printed with commas between them.

ghost use Rattle.std.specs.Prelude.{◌∷◌, map};
ghost use Rattle.std.specs.List.{flat_map};
ghost use Rattle.ssq_lex.specs.Printing.{Adds};
ghost use Rattle.ssq_ast.specs.Statement.{comma, separated};

use ssq_lex::{Printer, Symbol};

/// What is printed by its words.
pub(crate) trait Part {
    ghost use Rattle.std.specs.Prelude.{List};
    ghost use Rattle.ssq_lex.specs.Lexeme.{Lexeme};

    ghost written: { Self → List Lexeme };

    fn print(&self, printer: &mut Printer)
        ensures { Adds printer.old (written self.now) printer.new };
}

#[tactic(auto, using(crate::proofs::Printed::printing))]
fn print_further<P: Part>(printer: &mut Printer, parts: &[P])
    ensures { Adds printer.old (flat_map (λ part. comma ∷ P.written part) parts.now) printer.new }
{
    for part in parts {
        printer.symbol(Symbol::Comma);
        part.print(printer);
    }
}

#[tactic(auto, using(crate::proofs::Printed::printing))]
pub(crate) fn print_separated<P: Part>(printer: &mut Printer, parts: &[P])
    ensures { Adds printer.old (separated (map P.written parts.now)) printer.new }
{
    match parts.split_first() {
        Some((first, others)) => {
            first.print(printer);
            print_further(printer, others);
        }
        None => {}
    }
}

#[tactic(auto, using(crate::proofs::Printed::printing))]
pub(crate) fn print_each<P: Part>(printer: &mut Printer, parts: &[P])
    ensures { Adds printer.old (flat_map P.written parts.now) printer.new }
{
    for part in parts {
        part.print(printer);
    }
}
