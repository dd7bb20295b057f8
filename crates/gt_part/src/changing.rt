ghost use Rattle.std.specs.Prelude.{◌≡◌};
ghost use Rattle.gt_model.specs.declared.event.Event.{Event as Asked};
ghost use Rattle.gt_part.specs.Called.{Called};
ghost use Rattle.gt_part.specs.Shown.{pins_of};

use crate::Partition;
use crate::noting::{note, take_room};
use gt_act::{Reply, create, delete};
use gt_disk::Disk;
use gt_model::{Answer, Event, Refusal, Who};
use gt_name::RepoPath;
use std::alloc::Global;

impl<D: Disk + Drop> Partition<D> {
    /// Makes a repository, or a pool. `RepositoryExists` comes exactly where the content at the front has the path, and then
    /// `LogFull` exactly at the limit of positions; `DeviceFault` and `Unsure` only of a fault of the disk.
    pub fn create(&mut self, alloc: Global, who: Who, path: &RepoPath, pool: bool) -> Answer
        ensures called { Called D.tells D.view D.fault_count D.call_count who (Asked.Create path.now pool) result self.old self.new }
        ensures pins { pins_of self.new ≡ pins_of self.old }
    {
        let Ok(path) = path.clone() else {
            return Err(Refusal::Memory);
        };
        self.create_at(alloc, who, path, pool)
    }

    fn create_at(&mut self, alloc: Global, who: Who, path: RepoPath, pool: bool) -> Answer
        ensures called { Called D.tells D.view D.fault_count D.call_count who (Asked.Create path pool) result self.old self.new }
        ensures pins { pins_of self.new ≡ pins_of self.old }
    {
        if let Err(_) = take_room(&mut self.trail, self.state.live.len(), 1) {
            return Err(Refusal::Memory);
        }
        let ended = create(
            alloc,
            &self.limits,
            &mut self.state,
            &mut self.disk,
            &path,
            pool,
        );
        let tick = self.disk.tick();
        note(
            &mut self.trail,
            tick,
            who,
            Event::Create { path, pool },
            Reply::of(ended),
        )
    }

    /// Deletes a repository. `NoRepository` comes exactly where the content at the front lacks the path, then `PoolInUse`
    /// exactly where a repository has it as its pool, with the least one, and then `LogFull` exactly at the limit of
    /// positions; `DeviceFault` and `Unsure` only of a fault of the disk.
    pub fn delete(&mut self, alloc: Global, who: Who, path: &RepoPath) -> Answer
        ensures called { Called D.tells D.view D.fault_count D.call_count who (Asked.Delete path.now) result self.old self.new }
        ensures pins { pins_of self.new ≡ pins_of self.old }
    {
        let Ok(path) = path.clone() else {
            return Err(Refusal::Memory);
        };
        self.delete_at(alloc, who, path)
    }

    fn delete_at(&mut self, alloc: Global, who: Who, path: RepoPath) -> Answer
        ensures called { Called D.tells D.view D.fault_count D.call_count who (Asked.Delete path) result self.old self.new }
        ensures pins { pins_of self.new ≡ pins_of self.old }
    {
        if let Err(_) = take_room(&mut self.trail, self.state.live.len(), 1) {
            return Err(Refusal::Memory);
        }
        let reply = delete(alloc, &self.limits, &mut self.state, &mut self.disk, &path);
        let tick = self.disk.tick();
        note(&mut self.trail, tick, who, Event::Delete { path }, reply)
    }
}
