ghost use Rattle.gt_pack.specs.Laws.{NonePrefix, RecordsStand, RecordsFound, OthersAbsent};

/// No pack's spelling begins another's.
pub fn no_pack_begins_another()
    ensures { NonePrefix }
{}

/// Each record of a pack is the bytes at its place.
pub fn records_stand()
    ensures { RecordsStand }
{}

/// Each record of a pack is found by its name, and no other name is found.
pub fn records_are_found()
    ensures found { RecordsFound }
    ensures absent { OthersAbsent }
{}
