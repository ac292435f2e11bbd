//! Laws of the definitions, each as the contract of a function with an empty body.
ghost use Rattle.std.specs.Prelude.{◌≡◌};
ghost use Rattle.sqlite.specs.Effect.{Database};
ghost use Rattle.desk_rows.specs.Rows.{Holds, Rows};

/// A database has the rows of at most one list of rows.
pub fn rows_are_unique()
    ensures { (db : Database) (a b : Rows) → Holds db a → Holds db b → a ≡ b }
{}
