// Laws of reports.
ghost use Rattle.std.specs.Prelude.{ℕ, List};
ghost use Rattle.link_io.specs.Porches.{Seen};
ghost use Rattle.py_tree.specs.Trees.{Cell};
ghost use Rattle.ws_server.specs.Shares.{AreReported};
ghost use Rattle.ws_server.specs.Told.{Tells};
ghost use Rattle.ws_server.specs.Visitors.{alone_in};
ghost use Rattle.ws_server.specs.declared.report.Report.{Report};

/// What the report of `serve_doors` tells of the doors and of their visitors, without a word of which worker counted whom.
pub fn reports_tell()
    ensures { (nb : List Cell) (budget quota : ℕ) (before after : List Seen) (r : Report)
        → AreReported (alone_in nb budget) quota before after r → Tells (alone_in nb budget) quota before after r }
{}
