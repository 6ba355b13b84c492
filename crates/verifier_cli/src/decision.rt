//! What a command comes to, and whose words it is printed in.

use call_outcomes::Outcome;
use pi_tree::Protocol;

/// What a command comes to, with the protocol in whose words clauses and certificates are printed, if there is one.
#[derive(Drop)]
pub(crate) struct Decision {
    pub(crate) protocol: Option<Protocol>,
    pub(crate) outcome: Outcome,
}
