// Inside a comment: "comments are those of XML", which two dashes end.
ghost use Rattle.std.specs.Prelude.{◌≡◌, cond, eqb};
ghost use Rattle.grammar.specs.declared.Place.TheVariants.{Content, Comment};
ghost use Rattle.grammar.specs.declared.Step.TheVariants.{Go};
ghost use Rattle.grammar.specs.Grammar.{only};

use grammar::{Place, Step};

// A dash leads on.
pub fn inner_step(p: Place, t: u8, b: u8) -> Step
    ensures { result ≡ cond (eqb b 45) (Go p t) (Go Comment t) }
{
    if b == b'-' {
        return Step::Go(p, t);
    }
    Step::Go(Place::Comment, t)
}

// Behind two dashes only ">" may come.
pub fn dashes_step(t: u8, b: u8) -> Step
    ensures { result ≡ only 62 Content t b }
{
    if b == b'>' {
        return Step::Go(Place::Content, t);
    }
    Step::Fault
}
