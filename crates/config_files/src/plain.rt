// The plain configuration over modules of files.
ghost use Rattle.std.specs.Prelude.{◌≡◌, ◌≤◌, ◌<◌, Err, All, IfOk, IfErr, OnOk, length, map, string_bytes};
ghost use Rattle.gate_config.specs.Given.{given};
ghost use Rattle.gate_io.specs.Told.{Gains, Rose};
ghost use Rattle.vm_machines.specs.Making.{HasFilter};
ghost use Rattle.config_files.specs.Loading.{HasModule};
ghost use Rattle.config_files.specs.Plain.{IsNoPlain, IsPlainLoaded, IsPlainOf, ReadsPlain, StopsPlain, with_module};

use crate::reading::{LoadEnd, load_modules};
use gate_base::{OutOfMemory, Text};
use gate_config::Config;
use gate_io::Files;
use std::alloc::Global;

/// The plain configuration with a VM for each of these paths, at most 16, which holds the module of its file, one of a filter: `m1`, `m2`
/// and so on. The files are read one by one in the order of the paths, and none after a refusal.
pub fn load_plain<F: Files>(
    alloc: Global,
    paths: &[String],
    files: &mut F,
) -> Result<Config, LoadEnd>
    requires { length paths.now ≤ 16 }
    ensures loaded { IfOk result (λ c. IsPlainLoaded (F.holds files.old) (map string_bytes paths.now) (given c)) }
    ensures refused { IfErr result (IsNoPlain (F.holds files.old) (map string_bytes paths.now)) }
    ensures modules { IfOk result (λ c. All HasModule c.vms) }
    ensures filters { IfOk result (λ c. All HasFilter c.vms) }
    ensures all_read { OnOk result (Gains (F.paths files.old) (map string_bytes paths.now) (F.paths files.new)) }
    ensures paths { ReadsPlain (F.holds files.old) (map string_bytes paths.now) (F.paths files.old) (F.paths files.new) }
    ensures stopped { IfErr result (λ e. StopsPlain (F.holds files.old) (map string_bytes paths.now) e (F.paths files.old) (F.paths files.new)) }
    ensures holds { F.holds files.new ≡ F.holds files.old }
    ensures faults { F.faults files.old ≤ F.faults files.new }
    ensures fault { result ≡ Err LoadEnd.FileFault → Rose (F.faults files.old) (F.faults files.new) }
{
    let Ok(mut config) = plain_over(alloc, paths) else {
        return Err(LoadEnd::OutOfMemory);
    };
    match load_modules(alloc, &mut config, files) {
        Ok(()) => Ok(config),
        Err(end) => Err(end),
    }
}

/// The plain configuration over the modules of these paths, none of which is held yet.
fn plain_over(alloc: Global, paths: &[String]) -> Result<Config, OutOfMemory>
    requires { length paths.now ≤ 16 }
    ensures { IfOk result (λ c. IsPlainOf (map string_bytes paths.now) (given c)) }
{
    let mut config = Config::plain(alloc, paths.len() as u8)?;
    for place in 0..paths.len() {
        name_module(alloc, place, paths[place].as_str(), &mut config)?;
    }
    Ok(config)
}

/// Gives the VM of a place the path of its module.
fn name_module(
    alloc: Global,
    place: usize,
    path: &str,
    config: &mut Config,
) -> Result<(), OutOfMemory>
    requires { place < length config.old.vms }
    ensures { OnOk result (given config.new ≡ with_module place path.now (given config.old)) }
{
    let path = Text::of(alloc, path)?;
    let vm = config.vms.get_mut(place);
    vm.module = path;
    Ok(())
}
