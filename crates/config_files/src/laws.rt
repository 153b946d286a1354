//! What the definitions say, as functions without a body.

ghost use Rattle.std.specs.Prelude.{◌≡◌, ℕ, List, [], ◌∷◌, map, length, codes, None, Some};
ghost use Rattle.gate_config.specs.Given.{Given, given};
ghost use Rattle.gate_config.specs.Plain.{IsPlain, first_n, plain_vm};
ghost use Rattle.gate_config.specs.declared.config.Config.{Config};
ghost use Rattle.gate_io.specs.Paths.{file_at};
ghost use Rattle.wasm_syntax.specs.declared.module.Module.{Module};
ghost use Rattle.wasm_store.specs.declared.instance.LinkEnd.TheVariants as linking;
ghost use Rattle.vm_host.specs.declared.fitting.FitEnd.TheVariants as fitting;
ghost use Rattle.config_files.specs.Loading.{Told, HasFaultAt, IsCode, IsLoaded, IsNotLoaded};
ghost use Rattle.config_files.specs.Modules.{IsMisfit};
ghost use Rattle.config_files.specs.Plain.{IsPlainLoaded, plain_over, without_module, vms_over};
ghost use Rattle.config_files.specs.declared.modules.ModuleFault.{ModuleFault};
ghost use Rattle.config_files.specs.declared.reading.LoadEnd.TheVariants as ends;

/// Over no modules it is the plain configuration of no VM.
pub fn no_modules_are_plain()
    ensures { (files : Told) (config : Config) → IsPlainLoaded files [] (given config) → IsPlain 0 config }
{}

/// But for the paths of their modules, the VMs are those of the plain configuration of so many.
pub fn vms_are_plain()
    ensures { (paths : List (List ℕ)) → map without_module (vms_over 0 paths) ≡ first_n plain_vm (length paths) }
{}

/// The plain configuration over two modules.
pub fn worked_modules()
    ensures names { map (λ vm. vm.name) (plain_over (codes "a.wasm" ∷ codes "b.wasm" ∷ [])).vms ≡ codes "m1" ∷ codes "m2" ∷ [] }
    ensures modules { map (λ vm. vm.«module») (plain_over (codes "a.wasm" ∷ codes "b.wasm" ∷ [])).vms ≡ codes "a.wasm" ∷ codes "b.wasm" ∷ [] }
    ensures plugins { map (λ plugin. plugin.vm) (plain_over (codes "a.wasm" ∷ codes "b.wasm" ∷ [])).plugins ≡ 0 ∷ 1 ∷ [] }
    ensures routes { map (λ route. route.filters) (plain_over (codes "a.wasm" ∷ codes "b.wasm" ∷ [])).routes ≡ (0 ∷ 1 ∷ []) ∷ (0 ∷ 1 ∷ []) ∷ [] }
{}

/// That a module does not fit is never want of memory.
pub fn no_want_of_memory()
    ensures { (bytes : List ℕ) (pages : ℕ) → IsMisfit bytes pages (fitting.Unlinked linking.OutOfMemory) → ⊥ }
{}

/// A file that is missing is no configuration, loaded or refused, and no module of a VM, held or refused.
pub fn missing_is_nothing()
    ensures loaded { (files : List (List ℕ × List ℕ)) (path : List ℕ) (config : Given) → file_at files path ≡ None → IsLoaded (Some files) path config → ⊥ }
    ensures refused { (files : List (List ℕ × List ℕ)) (path : List ℕ) (number : ℕ) (key : List ℕ) → file_at files path ≡ None → IsNotLoaded (Some files) path (ends.Config number key) → ⊥ }
    ensures held { (files : List (List ℕ × List ℕ)) (path : List ℕ) (pages : ℕ) (m : Module) → file_at files path ≡ None → IsCode (Some files) path pages m → ⊥ }
    ensures bad { (files : List (List ℕ × List ℕ)) (path : List ℕ) (pages : ℕ) (fault : ModuleFault) → file_at files path ≡ None → HasFaultAt (Some files) path pages fault → ⊥ }
{}
