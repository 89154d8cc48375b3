// What holds of every visitor who is served over a link that tells.
ghost use Rattle.std.specs.Prelude.{◌≡◌, ◌≤◌, ◌++◌, ℕ, All, List, [], Some, length};
ghost use Rattle.kernel.specs.Visit.{Visit, begun};
ghost use Rattle.link_io.specs.Links.{Item, Told, fresh};
ghost use Rattle.py_tree.specs.declared.tree.CellCode.{CellCode};
ghost use Rattle.session.specs.Serving.{SentClosed, SentSolo, SentSome, Serves};
ghost use Rattle.session.specs.Talks.{IsNoClose};
ghost use Rattle.session.specs.declared.ended.Ended.TheVariants as ended;

/// What `serve_visitor` sends over a link that tells, on a kernel at its beginning, are the frames of a visitor alone who sends the messages that
/// were taken: all of them where it ends well, and else a prefix of them.
pub fn sent_is_solo()
    // All messages were taken, or those up to a close message, which isn't answered.
    ensures closed { (nb : List CellCode) (budget : ℕ) (all : List Item) (after : Visit) (now : Told)
        → Serves ended.Closed (begun nb budget) (Some (fresh all)) after (Some now)
        → SentClosed nb budget all now }
    ensures many { (nb : List CellCode) (budget : ℕ) (all : List Item) (after : Visit) (now : Told)
        → Serves ended.TooMany (begun nb budget) (Some (fresh all)) after (Some now)
        → SentSolo nb budget now.taken now × (length now.taken ≡ 1000000)
        × (now.taken ++ now.left ≡ all) × All IsNoClose now.taken }
    ensures fault { (nb : List CellCode) (budget : ℕ) (all : List Item) (after : Visit) (now : Told)
        → Serves ended.LinkFault (begun nb budget) (Some (fresh all)) after (Some now)
        → SentSome nb budget all now.taken [] now }

    // Of the messages that were taken there is one at most which the kernel didn't take, and then all texts before it were sent.
    ensures memory { (nb : List CellCode) (budget : ℕ) (all : List Item) (after : Visit) (now : Told)
        → Serves ended.Memory (begun nb budget) (Some (fresh all)) after (Some now)
        → (heard : List Item) × (untaken : List Item) × (length untaken ≤ 1)
        × SentSome nb budget all heard untaken now }
{}
