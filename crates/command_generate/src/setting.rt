// Over what the generator runs.
ghost use Rattle.std.specs.Prelude.{◌≡◌, ◌≤◌, IfOk, OnOk};
ghost use Rattle.gate_config.specs.Given.{given};
ghost use Rattle.command_generate.specs.Setting.{generator_config, world_of, worlds_of};

use gate_base::{Members, OutOfMemory, VmNo, WorkerNo};
use gate_config::Config;
use gate_io::MemWorld;
use std::alloc::Global;
use workload::{events, module};

/// The configuration of the generator: the plain one of one VM, which holds the filter, with four workers.
pub fn generator_config(alloc: Global) -> Result<Config, OutOfMemory>
    ensures { IfOk result (λ c. given c ≡ generator_config) }
{
    let filter = module(alloc)?;
    let mut config = Config::plain(alloc, 1)?;
    let Some(vm) = VmNo::new(0) else {
        unreachable!()
    };
    config.hold(vm, filter);
    config.workers = 4;
    Ok(config)
}

/// The world of a worker, which gives its events, takes each piece whole and fails no call.
fn world_of(alloc: Global, n: u32, who: u8) -> Result<MemWorld, OutOfMemory>
    requires { (1 ≤ who) × (who ≤ 4) }
    ensures { IfOk result (λ w. w ≡ world_of n who) }
{
    let Some(number) = WorkerNo::new(who) else {
        unreachable!()
    };
    let events = events(alloc, n, number)?;
    Ok(MemWorld::new(alloc, events, [0; 32], None, Members::new(alloc)))
}

/// The worlds of the four workers.
pub fn worlds_of(alloc: Global, n: u32) -> Result<Vec<MemWorld>, OutOfMemory>
    ensures { IfOk result (λ worlds. worlds.items ≡ worlds_of n) }
{
    let mut worlds = Vec::new(alloc);
    worlds.push(world_of(alloc, n, 1)?)?;
    worlds.push(world_of(alloc, n, 2)?)?;
    worlds.push(world_of(alloc, n, 3)?)?;
    worlds.push(world_of(alloc, n, 4)?)?;
    Ok(worlds)
}
