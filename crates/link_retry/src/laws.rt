//! The law of a link: a function that does nothing, with the law as clauses.

ghost use Rattle.std.specs.Prelude.{◌≡◌, ◌++◌, List};
ghost use Rattle.link_retry.specs.Link.{LinkView, new_link};
ghost use Rattle.link_retry.specs.Run.{LinkCall, LinkRun, sent_by, taken_by};

/// Whatever a network does with the frames, and in whatever order the calls come: what was taken,
/// and then what is pending, is what was sent. So what was taken is a prefix of what was sent, each
/// message once and in order.
pub fn in_order()
    ensures { (calls : List LinkCall) (link : LinkView) → LinkRun new_link calls link
        → taken_by calls ++ link.pending ≡ sent_by calls }
{}
