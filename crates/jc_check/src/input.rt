//! The input of the pass.

use crate::claim::Claim;
use crate::mark::ByteMark;
use crate::method::CheckedMethod;

/// The input of the pass, besides the rules: the method, the table of its marks, and the certificate's claims.
#[derive(Drop)]
pub(crate) struct PassInput<'c, 'a> {
    pub(crate) method: &'c CheckedMethod<'a>,
    pub(crate) marks: &'c [ByteMark],
    pub(crate) claims: &'c [Claim],
}
