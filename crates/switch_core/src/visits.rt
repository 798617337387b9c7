//! A request that a pass comes to.

use crate::stands::Stand;
use request_list::Request;

/// A request that a pass comes to, and where the pass stands.
#[derive(Clone, Copy, Debug, PartialEq, Eq)]
pub struct Visit {
    pub request: Request,
    pub stand: Stand,
}
