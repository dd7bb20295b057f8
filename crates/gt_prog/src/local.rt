ghost use Rattle.std.specs.Prelude.{◌≡◌};

use gt_disk::Disk;
use gt_model::{Answer, Refusal, Who};
use gt_name::{Name, RefName, RepoPath};
use gt_part::Partition;
use gt_pins::Pin;
use gt_session::Parts;
use gt_stage::Stage;
use std::alloc::Global;
use std::marker::Model;

/// The one partition, and its disk.
pub(crate) const FIRST: u8 = 1;

/// A partition in the program's own hands, as the sessions see it.
#[derive(Drop)]
pub(crate) struct Local<D: Disk + Drop> {
    pub(crate) partition: Partition<D>,
}

impl<D: Disk + Drop> Model for Local<D> {
    ghost use Rattle.gt_part.specs.Shown.{Shown};

    ghost Value = { Shown D };

    ghost view = { λ local. local.partition };
}

impl<D: Disk + Drop> Parts for Local<D> {
    type Pass = Pin;

    ghost use Rattle.std.specs.Prelude.{Some, map};
    ghost use Rattle.gt_prog.specs.One.{in_one, LocalDid, Mapped};

    ghost live = { λ local. in_one (map (λ p. p.number) local.live) };

    ghost home = { λ local path. Some 1 };

    ghost did = { λ partition who event answer given old new. LocalDid D.tells D.view D.fault_count D.call_count partition who event answer given old new };

    ghost mapped = { λ who path event found old new. Mapped who path event found old new };

    fn route(&mut self, alloc: Global, who: Who, path: &RepoPath) -> Result<Option<u8>, Refusal> {
        Ok(Some(FIRST))
    }

    fn assign(
        &mut self,
        alloc: Global,
        who: Who,
        path: &RepoPath,
        kin: Option<u8>,
    ) -> Result<u8, Refusal> {
        Ok(FIRST)
    }

    fn create(
        &mut self,
        alloc: Global,
        partition: u8,
        who: Who,
        path: &RepoPath,
        pool: bool,
    ) -> Answer {
        self.partition.create(alloc, who, path, pool)
    }

    fn delete(&mut self, alloc: Global, partition: u8, who: Who, path: &RepoPath) -> Answer {
        self.partition.delete(alloc, who, path)
    }

    fn begin(
        &mut self,
        alloc: Global,
        partition: u8,
        who: Who,
        path: &RepoPath,
        seen: u64,
        pass: &mut Option<Pin>,
    ) -> Answer {
        self.partition.begin(who, path, seen, pass)
    }

    fn get_ref(
        &mut self,
        alloc: Global,
        partition: u8,
        who: Who,
        pass: &mut Pin,
        name: &RefName,
    ) -> Answer {
        self.partition.get_ref(who, &*pass, name)
    }

    fn list_refs(
        &mut self,
        alloc: Global,
        partition: u8,
        who: Who,
        pass: &mut Pin,
        prefix: &[u8],
    ) -> Answer {
        self.partition.list_refs(alloc, who, &*pass, prefix)
    }

    fn cat(
        &mut self,
        alloc: Global,
        partition: u8,
        who: Who,
        pass: &mut Pin,
        name: &Name,
    ) -> Answer {
        self.partition.cat(alloc, who, &*pass, name)
    }

    fn commit(
        &mut self,
        alloc: Global,
        partition: u8,
        who: Who,
        pass: &mut Option<Pin>,
        stage: &Stage,
    ) -> Answer {
        self.partition.commit(alloc, who, pass, stage)
    }

    fn abort(&mut self, partition: u8, who: Who, pass: Pin) -> Answer {
        self.partition.abort(who, pass)
    }

    fn apply(&mut self, alloc: Global, partition: u8, who: Who, n: u32) -> Answer {
        self.partition.apply(alloc, who, n)
    }
}
