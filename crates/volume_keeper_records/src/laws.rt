//! Laws of a volume's records. Each function says one, and does nothing.
ghost use Rattle.volume_keeper_records.specs.Laws as laws;
ghost use Rattle.volume_keeper_records.specs.Migration as migration;

/// A row of a volume's shape is read from its record. What is read is of that shape and has just that record.
pub fn rows_are_read_back()
    ensures back { laws.RowsAreReadBack }
    ensures formed { laws.ReadRowsAreFormed }
    ensures theirs { laws.ReadRowsAreTheirs }
{}

/// The records of a sound volume rise by key, and none of them is bad where its numbers are in their ranges. Records by rising key that are not
/// empty and of which none is bad are those of a volume of that name, and of one alone.
pub fn records_are_images()
    ensures rising { laws.ImagesRise }
    ensures good { laws.ImagesAreGood }
    ensures old { laws.OldAreGood }
    ensures image { laws.GoodAreImages }
    ensures one { laws.ImagesDiffer }
{
    fork_bytes::laws::blocks_are_bytes();
    fork_bytes::laws::blocks_of_bytes_are_kept();
}

/// The same of records as a keeper has them, a value for each key.
pub fn kept_records_are_images()
    ensures good { laws.KeptAreGood }
    ensures image { laws.GoodAreKept }
    ensures one { laws.KeptDiffer }
{
    fork_bytes::laws::blocks_are_bytes();
    fork_bytes::laws::blocks_of_bytes_are_kept();
}

/// A sound volume is the one that its tables say: each fork's bytes are those of its length and its blocks.
pub fn tables_say_volumes()
    ensures tables { laws.TablesSayVolumes }
    ensures old { laws.OldTablesSayVolumes }
{
    fork_bytes::laws::blocks_are_bytes();
    fork_bytes::laws::blocks_of_bytes_are_kept();
}

/// The records of a volume in the older version become its image by the records of its head and of its nodes.
pub fn older_records_migrate()
    ensures { migration.MigrationGivesImage }
{
    fork_bytes::laws::blocks_are_bytes();
    fork_bytes::laws::blocks_of_bytes_are_kept();
}
