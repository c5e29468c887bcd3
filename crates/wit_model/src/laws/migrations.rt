//! Laws of migrations, from the first version of the format to the second. Each function is a
//! theorem, and does nothing.

ghost use Rattle.wit_model.specs.Trace.Moving.{MigrationsTellTheSame};

/// Where no line is bad, what a migration writes is a trace of the second version, in which every
/// step of a lock is one that its world allows. The same is told of it as of the first trace, and
/// it ends with the same story: the log, the files, the locks and the listed orders are equal.
pub fn law_migration_tells_the_same()
    ensures { MigrationsTellTheSame }
{}
