//! Where a run of a body stands.

use crate::frame::Frame;
use value_core::Reply;

/// Where a run of a body stands: the values of the names that are seen, in the order of the scope; the replies that weren't used yet; and
/// the turns that are left, of which the last may not be begun. After a stop nothing is said of it.
#[derive(Drop)]
pub struct Run<'a> {
    pub frame: Frame<'a>,
    pub replies: &'a [Reply],
    pub left: u64,
}
