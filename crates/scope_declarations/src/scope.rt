//! What names are read by.

ghost use Rattle.scope_declarations.specs.Names.{IsKept};
ghost use Rattle.scope_declarations.specs.Props.{scope_props};
ghost use Rattle.scope_declarations.specs.Text.{texts_of};

use crate::names::Names;
use crate::source::Text;

/// What names are read by: the text of each token, and the names that are declared.
#[derive(Clone, Copy)]
pub struct Scope<'a> {
    pub text: Text<'a>,
    pub names: &'a Names<'a>,
    ghost kept: { IsKept (texts_of text) names.now } by { Prim.hlevel scope_props },
}
