// Laws, proved from the definitions.
ghost use Rattle.std.specs.Prelude.{ℕ};
ghost use Rattle.py_tree.specs.Trees.{Tree, Stmts};
ghost use Rattle.run_meaning.specs.Meaning.{Scene, Env, value_of, block_of};
ghost use Rattle.run_meaning.specs.Runs.{HasOneRun};

/// An expression and a block have one run each, its beginnings that are cut, and each budget picks one of them.
pub fn one_run()
    ensures expression { (scene : Scene) (env : Env) (line : ℕ) (t : Tree)
        → HasOneRun (value_of scene env line t) }
    ensures block { (scene : Scene) (env : Env) (block : Stmts)
        → HasOneRun (block_of scene env block) }
{}
