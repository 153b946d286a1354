// A configuration and its modules from files.
ghost use Rattle.std.specs.Prelude.{◌≡◌, ◌≢◌, ◌≤◌, ◌<◌, ◌∷◌, [], Some, Ok, Err, ℕ, List, All, IfOk, IfErr, OnOk, OnErr, length};
ghost use Rattle.gate_config.specs.Given.{given};
ghost use Rattle.gate_io.specs.Paths.{ReadsTold};
ghost use Rattle.gate_io.specs.Told.{Gains, GainsFront, Rose};
ghost use Rattle.config_reader.specs.Whole.{config_of};
ghost use Rattle.vm_machines.specs.Making.{HasFilter};
ghost use Rattle.config_files.specs.Modules.{IsFilter};
ghost use Rattle.config_files.specs.Loading.{HasModule, HoldsAll, HoldsAt, IsBad, IsBadAt, IsBadIn, IsCode, IsConfigEnd, IsLoaded, IsModuleEnd, IsNoCode, IsNoCodeOf, IsNoConfig, IsNoConfigAt, IsNotLoaded, IsRead, ReadsInOrder, ReadsModules, ReadsNoCode, ReadsRefused, StopsAt, StopsIn, module_at, modules_of, refusal_of};

use crate::modules::{ModuleEnd, ModuleFault, read_code};
use config_reader::{ConfigEnd, read_config};
use gate_base::{Octets, Text, VmNo};
use gate_config::{Config, VmEntry};
use gate_io::{FileEnd, Files};
use std::alloc::Global;
use wasm_syntax::ValidModule;

/// How many bytes a configuration has at most: 1 MiB.
const MAX_CONFIG: usize = 1048576;

/// How many bytes a module has at most: 4 MiB.
const MAX_MODULE: usize = 4194304;

/// Why nothing was loaded: the first of these that stands.
#[derive(Drop)]
pub enum LoadEnd {
    /// The configuration is refused, with this number at this key.
    Config { number: u8, key: Text },
    /// The file of the VM of this name is no module that it can run.
    Module { vm: Text, fault: ModuleFault },
    /// A read failed.
    FileFault,
    /// Memory ran out.
    OutOfMemory,
}

/// Why no module was read from a file.
#[derive(Clone, Copy)]
enum CodeEnd {
    /// The file is no module that a VM can run.
    Refused { fault: ModuleFault },
    /// The read failed.
    FileFault,
    /// Memory ran out.
    OutOfMemory,
}

/// The configuration of the file of a path, each VM of which holds the module of its own file, which is one of a filter with the VM's
/// pages. The files are read one by one, the configuration's first, then the modules' in the order of the VMs, and none after a refusal.
pub fn load<F: Files>(alloc: Global, path: &str, files: &mut F) -> Result<Config, LoadEnd>
    ensures loaded { IfOk result (λ c. IsLoaded (F.holds files.old) path.now (given c)) }
    ensures refused { IfErr result (IsNotLoaded (F.holds files.old) path.now) }
    ensures modules { IfOk result (λ c. All HasModule c.vms) }
    ensures filters { IfOk result (λ c. All HasFilter c.vms) }
    ensures all_read { IfOk result (λ c. Gains (F.paths files.old) (path.now ∷ modules_of c.vms) (F.paths files.new)) }
    ensures paths { ReadsInOrder (F.holds files.old) path.now (F.paths files.old) (F.paths files.new) }
    ensures stopped { IfErr result (λ e. StopsAt (F.holds files.old) path.now e (F.paths files.old) (F.paths files.new)) }
    ensures holds { F.holds files.new ≡ F.holds files.old }
    ensures faults { F.faults files.old ≤ F.faults files.new }
    ensures fault { result ≡ Err LoadEnd.FileFault → Rose (F.faults files.old) (F.faults files.new) }
{
    let mut config = match read_text(alloc, path, files) {
        Ok(config) => config,
        Err(end) => return Err(end),
    };
    match load_modules(alloc, &mut config, files) {
        Ok(()) => Ok(config),
        Err(end) => Err(end),
    }
}

/// The configuration of the file of a path, without modules.
fn read_text<F: Files>(alloc: Global, path: &str, files: &mut F) -> Result<Config, LoadEnd>
    ensures read { IfOk result (λ c. IsRead (F.holds files.old) path.now (Ok (given c))) }
    ensures refused { IfErr result (IsNoConfigAt (F.holds files.old) path.now) }
    ensures one { OnOk result (Gains (F.paths files.old) (path.now ∷ []) (F.paths files.new)) }
    ensures front { OnErr result (GainsFront (F.paths files.old) (path.now ∷ []) (F.paths files.new)) }
    ensures stopped { IfErr result (λ e. StopsAt (F.holds files.old) path.now e (F.paths files.old) (F.paths files.new)) }
    ensures holds { F.holds files.new ≡ F.holds files.old }
    ensures faults { F.faults files.old ≤ F.faults files.new }
    ensures fault { result ≡ Err LoadEnd.FileFault → Rose (F.faults files.old) (F.faults files.new) }
{
    match read_file(alloc, path, MAX_CONFIG, files) {
        Ok(text) => config_in(alloc, text.as_slice()),
        Err(FileEnd::Failed) => Err(LoadEnd::FileFault),
        Err(FileEnd::TooLong) => Err(too_long(alloc)),
        Err(FileEnd::OutOfMemory) => Err(LoadEnd::OutOfMemory),
    }
}

/// The refusal of a configuration that is too long.
fn too_long(alloc: Global) -> LoadEnd
    ensures refusal { (text : List ℕ) → 1048576 < length text → IsNoConfig text result }
    ensures config { IsConfigEnd result }
    ensures no_fault { result ≢ LoadEnd.FileFault }
{
    match Text::of(alloc, "-") {
        Ok(key) => LoadEnd::Config { number: 7, key },
        Err(_) => LoadEnd::OutOfMemory,
    }
}

/// The configuration of a text.
fn config_in(alloc: Global, text: &[u8]) -> Result<Config, LoadEnd>
    ensures read { IfOk result (λ c. config_of text.now ≡ Ok (given c)) }
    ensures refused { IfErr result (IsNoConfig text.now) }
    ensures no_fault { result ≢ Err LoadEnd.FileFault }
{
    match read_config(alloc, text) {
        Ok(config) => Ok(config),
        Err(end) => Err(refusal_of(end)),
    }
}

/// The same refusal.
fn refusal_of(end: ConfigEnd) -> LoadEnd
    ensures { result ≡ refusal_of end }
{
    match end {
        ConfigEnd::Refused { number, key } => LoadEnd::Config { number, key },
        ConfigEnd::OutOfMemory => LoadEnd::OutOfMemory,
    }
}

/// Gives each VM the module of its file, in their order.
pub(crate) fn load_modules<F: Files>(
    alloc: Global,
    config: &mut Config,
    files: &mut F,
) -> Result<(), LoadEnd>
    ensures holding { OnOk result (HoldsAll (F.holds files.old) (given config.old) (given config.new)) }
    ensures modules { OnOk result (All HasModule config.new.vms) }
    ensures filters { OnOk result (All HasFilter config.new.vms) }
    ensures refused { IfErr result (IsBadIn (F.holds files.old) config.old.vms) }
    ensures all_read { OnOk result (Gains (F.paths files.old) (modules_of config.old.vms) (F.paths files.new)) }
    ensures paths { ReadsModules (F.holds files.old) config.old.vms (F.paths files.old) (F.paths files.new) }
    ensures stopped { IfErr result (λ e. StopsIn (F.holds files.old) config.old.vms e (F.paths files.old) (F.paths files.new)) }
    ensures holds { F.holds files.new ≡ F.holds files.old }
    ensures faults { F.faults files.old ≤ F.faults files.new }
    ensures fault { result ≡ Err LoadEnd.FileFault → Rose (F.faults files.old) (F.faults files.new) }
{
    for place in 0..config.vms.len() {
        match load_vm(alloc, place, config, files) {
            Ok(()) => (),
            Err(end) => return Err(end),
        }
    }
    Ok(())
}

/// Gives the VM of a place the module of its file.
fn load_vm<F: Files>(
    alloc: Global,
    place: usize,
    config: &mut Config,
    files: &mut F,
) -> Result<(), LoadEnd>
    requires { place < length config.old.vms }
    ensures held { OnOk result (HoldsAt (F.holds files.old) place (given config.old) (given config.new)) }
    ensures refused { IfErr result (IsBadAt (F.holds files.old) place config.old.vms) }
    ensures one { OnOk result (Gains (F.paths files.old) (module_at place config.old.vms ∷ []) (F.paths files.new)) }
    ensures front { OnErr result (GainsFront (F.paths files.old) (module_at place config.old.vms ∷ []) (F.paths files.new)) }
    ensures refused_read { IfErr result (λ e. ReadsRefused (module_at place config.old.vms) e (F.paths files.old) (F.paths files.new)) }
    ensures holds { F.holds files.new ≡ F.holds files.old }
    ensures faults { F.faults files.old ≤ F.faults files.new }
    ensures fault { result ≡ Err LoadEnd.FileFault → Rose (F.faults files.old) (F.faults files.new) }
{
    let Some(vm) = VmNo::new(place as u8) else {
        unreachable!()
    };
    match vm_code(alloc, config.vms.get(place), files) {
        Ok(code) => {
            config.hold(vm, code);
            Ok(())
        }
        Err(end) => Err(end),
    }
}

/// The module of a VM's file.
fn vm_code<F: Files>(alloc: Global, vm: &VmEntry, files: &mut F) -> Result<ValidModule, LoadEnd>
    ensures code { IfOk result (IsCode (F.holds files.old) vm.now.«module» vm.now.pages) }
    ensures refused { IfErr result (IsBad (F.holds files.old) vm.now) }
    ensures one { OnOk result (Gains (F.paths files.old) (vm.now.«module» ∷ []) (F.paths files.new)) }
    ensures front { OnErr result (GainsFront (F.paths files.old) (vm.now.«module» ∷ []) (F.paths files.new)) }
    ensures refused_read { IfErr result (λ e. ReadsRefused vm.now.«module» e (F.paths files.old) (F.paths files.new)) }
    ensures holds { F.holds files.new ≡ F.holds files.old }
    ensures faults { F.faults files.old ≤ F.faults files.new }
    ensures fault { result ≡ Err LoadEnd.FileFault → Rose (F.faults files.old) (F.faults files.new) }
{
    match code_at(alloc, vm.module.as_str(), vm.pages, files) {
        Ok(code) => Ok(code),
        Err(CodeEnd::Refused { fault }) => Err(bad_module(alloc, vm, fault)),
        Err(CodeEnd::FileFault) => Err(LoadEnd::FileFault),
        Err(CodeEnd::OutOfMemory) => Err(LoadEnd::OutOfMemory),
    }
}

/// The refusal of a VM's module.
fn bad_module(alloc: Global, vm: &VmEntry, fault: ModuleFault) -> LoadEnd
    ensures { IsModuleEnd vm.now.name fault result }
{
    match vm.name.copy(alloc) {
        Ok(vm) => LoadEnd::Module { vm, fault },
        Err(_) => LoadEnd::OutOfMemory,
    }
}

/// The module of the file of a path, which is one of a filter whose memory may have so many pages.
fn code_at<F: Files>(
    alloc: Global,
    path: &str,
    pages: u32,
    files: &mut F,
) -> Result<ValidModule, CodeEnd>
    ensures code { IfOk result (IsCode (F.holds files.old) path.now pages) }
    ensures refused { IfErr result (IsNoCode (F.holds files.old) path.now pages) }
    ensures one { OnOk result (Gains (F.paths files.old) (path.now ∷ []) (F.paths files.new)) }
    ensures front { OnErr result (GainsFront (F.paths files.old) (path.now ∷ []) (F.paths files.new)) }
    ensures refused_read { IfErr result (λ e. ReadsNoCode path.now e (F.paths files.old) (F.paths files.new)) }
    ensures holds { F.holds files.new ≡ F.holds files.old }
    ensures faults { F.faults files.old ≤ F.faults files.new }
    ensures fault { result ≡ Err CodeEnd.FileFault → Rose (F.faults files.old) (F.faults files.new) }
{
    match read_file(alloc, path, MAX_MODULE, files) {
        Ok(bytes) => code_in(alloc, bytes.as_slice(), pages),
        Err(FileEnd::Failed) => Err(CodeEnd::FileFault),
        Err(FileEnd::TooLong) => Err(CodeEnd::Refused {
            fault: ModuleFault::Unread {
                number: 9,
                place: 0,
            },
        }),
        Err(FileEnd::OutOfMemory) => Err(CodeEnd::OutOfMemory),
    }
}

/// The module of these bytes.
fn code_in(alloc: Global, bytes: &[u8], pages: u32) -> Result<ValidModule, CodeEnd>
    ensures code { IfOk result (IsFilter bytes.now pages) }
    ensures refused { IfErr result (IsNoCodeOf bytes.now pages) }
{
    match read_code(alloc, bytes, pages) {
        Ok(code) => Ok(code),
        Err(ModuleEnd::Refused { fault }) => Err(CodeEnd::Refused { fault }),
        Err(ModuleEnd::OutOfMemory) => Err(CodeEnd::OutOfMemory),
    }
}

/// The bytes of the file of a path.
fn read_file<F: Files>(
    alloc: Global,
    path: &str,
    most: usize,
    files: &mut F,
) -> Result<Octets, FileEnd>
    requires { most ≤ 67108864 }
    ensures content { ReadsTold (F.holds files.old) path.now most result }
    ensures one { OnOk result (Gains (F.paths files.old) (path.now ∷ []) (F.paths files.new)) }
    ensures front { OnErr result (GainsFront (F.paths files.old) (path.now ∷ []) (F.paths files.new)) }
    ensures long_read { result ≡ Err FileEnd.TooLong → Gains (F.paths files.old) (path.now ∷ []) (F.paths files.new) }
    ensures holds { F.holds files.new ≡ F.holds files.old }
    ensures faults { F.faults files.old ≤ F.faults files.new }
    ensures failed { result ≡ Err FileEnd.Failed → Rose (F.faults files.old) (F.faults files.new) }
{
    files.read(alloc, path, most)
}
