use gt_list::ListOf;
use gt_model::Entry;
use gt_objset::ObjSet;
use gt_plain::PlainContent;
use gt_reftable::RefTable;
use gt_stage::Stage;
use gt_table::Table;
use row_words::Pending;
use std::alloc::Global;

/// What the rows work on: the parts of the next write, the entry in hand, what it is added to, and a stage.
#[derive(Drop)]
pub(crate) struct Bench {
    pub(crate) pending: Pending,
    pub(crate) entry: Option<Entry>,
    pub(crate) refs: RefTable,
    pub(crate) objects: ObjSet,
    pub(crate) table: Table,
    pub(crate) content: PlainContent,
    pub(crate) stage: Stage,
}

impl Bench {
    /// All empty, where the table of references and that of objects begin at a floor.
    pub(crate) fn new(alloc: Global, floor: u64) -> Option<Bench> {
        let refs = RefTable::start(alloc, floor).ok()?;
        let objects = ObjSet::start(alloc, floor).ok()?;
        let table = Table::over(alloc, 0, &ListOf::new(alloc)).ok()?;
        Some(Bench {
            pending: Pending::new(alloc),
            entry: None,
            refs,
            objects,
            table,
            content: PlainContent::new(alloc),
            stage: Stage::new(alloc),
        })
    }
}
