// Copies of modules.
ghost use Rattle.std.specs.Prelude.{◌≡◌, IfOk};

use crate::instr::copy_expression;
use crate::lists::copied;
use gate_base::{Members, OutOfMemory};
use std::alloc::Global;
use wasm_syntax::{
    Code, Element, Export, FunctionType, Global as ModuleGlobal, Import, Module, Segment,
    ValidModule,
};

/// A copy of a valid module: the same module, so it is valid too. It shares nothing with the first.
pub fn copy_module(alloc: Global, module: &ValidModule) -> Result<ValidModule, OutOfMemory>
    ensures { IfOk result (λ copy. copy ≡ module.now) }
{
    Ok(ValidModule::hold(copy_parts(alloc, module.module())?))
}

/// A copy of a module.
fn copy_parts(alloc: Global, module: &Module) -> Result<Module, OutOfMemory>
    ensures { IfOk result (λ copy. copy ≡ module.now) }
{
    Ok(Module {
        types: copy_signatures(alloc, &module.types)?,
        imports: copy_imports(alloc, &module.imports)?,
        functions: copied(alloc, &module.functions)?,
        tables: copied(alloc, &module.tables)?,
        memories: copied(alloc, &module.memories)?,
        globals: copy_globals(alloc, &module.globals)?,
        exports: copy_exports(alloc, &module.exports)?,
        start: module.start,
        elements: copy_elements(alloc, &module.elements)?,
        codes: copy_codes(alloc, &module.codes)?,
        segments: copy_segments(alloc, &module.segments)?,
    })
}

/// A copy of a type of functions.
fn copy_signature(alloc: Global, signature: &FunctionType) -> Result<FunctionType, OutOfMemory>
    ensures { IfOk result (λ copy. copy ≡ signature.now) }
{
    Ok(FunctionType {
        parameters: copied(alloc, &signature.parameters)?,
        results: copied(alloc, &signature.results)?,
    })
}

/// A copy of a list of them.
fn copy_signatures(
    alloc: Global,
    signatures: &Members<FunctionType>,
) -> Result<Members<FunctionType>, OutOfMemory>
    ensures { IfOk result (λ copy. copy ≡ signatures.now) }
{
    let mut copy = Members::new(alloc);
    for signature in signatures.as_slice() {
        copy.push(copy_signature(alloc, signature)?)?;
    }
    Ok(copy)
}

/// A copy of an entry of the imports.
fn copy_import(alloc: Global, import: &Import) -> Result<Import, OutOfMemory>
    ensures { IfOk result (λ copy. copy ≡ import.now) }
{
    Ok(Import {
        module: import.module.copy(alloc)?,
        name: import.name.copy(alloc)?,
        kind: import.kind,
    })
}

/// A copy of a list of them.
fn copy_imports(alloc: Global, imports: &Members<Import>) -> Result<Members<Import>, OutOfMemory>
    ensures { IfOk result (λ copy. copy ≡ imports.now) }
{
    let mut copy = Members::new(alloc);
    for import in imports.as_slice() {
        copy.push(copy_import(alloc, import)?)?;
    }
    Ok(copy)
}

/// A copy of a global.
fn copy_global(alloc: Global, global: &ModuleGlobal) -> Result<ModuleGlobal, OutOfMemory>
    ensures { IfOk result (λ copy. copy ≡ global.now) }
{
    Ok(ModuleGlobal {
        of: global.of,
        initial: copy_expression(alloc, &global.initial)?,
    })
}

/// A copy of a list of them.
fn copy_globals(
    alloc: Global,
    globals: &Members<ModuleGlobal>,
) -> Result<Members<ModuleGlobal>, OutOfMemory>
    ensures { IfOk result (λ copy. copy ≡ globals.now) }
{
    let mut copy = Members::new(alloc);
    for global in globals.as_slice() {
        copy.push(copy_global(alloc, global)?)?;
    }
    Ok(copy)
}

/// A copy of an entry of the exports.
fn copy_export(alloc: Global, export: &Export) -> Result<Export, OutOfMemory>
    ensures { IfOk result (λ copy. copy ≡ export.now) }
{
    Ok(Export {
        name: export.name.copy(alloc)?,
        kind: export.kind,
    })
}

/// A copy of a list of them.
fn copy_exports(alloc: Global, exports: &Members<Export>) -> Result<Members<Export>, OutOfMemory>
    ensures { IfOk result (λ copy. copy ≡ exports.now) }
{
    let mut copy = Members::new(alloc);
    for export in exports.as_slice() {
        copy.push(copy_export(alloc, export)?)?;
    }
    Ok(copy)
}

/// A copy of an element segment.
fn copy_element(alloc: Global, element: &Element) -> Result<Element, OutOfMemory>
    ensures { IfOk result (λ copy. copy ≡ element.now) }
{
    Ok(Element {
        table: element.table,
        offset: copy_expression(alloc, &element.offset)?,
        functions: copied(alloc, &element.functions)?,
    })
}

/// A copy of a list of them.
fn copy_elements(
    alloc: Global,
    elements: &Members<Element>,
) -> Result<Members<Element>, OutOfMemory>
    ensures { IfOk result (λ copy. copy ≡ elements.now) }
{
    let mut copy = Members::new(alloc);
    for element in elements.as_slice() {
        copy.push(copy_element(alloc, element)?)?;
    }
    Ok(copy)
}

/// A copy of the code of a function.
fn copy_code(alloc: Global, code: &Code) -> Result<Code, OutOfMemory>
    ensures { IfOk result (λ copy. copy ≡ code.now) }
{
    Ok(Code {
        locals: code.locals.copy(alloc)?,
        body: copy_expression(alloc, &code.body)?,
    })
}

/// A copy of a list of them.
fn copy_codes(alloc: Global, codes: &Members<Code>) -> Result<Members<Code>, OutOfMemory>
    ensures { IfOk result (λ copy. copy ≡ codes.now) }
{
    let mut copy = Members::new(alloc);
    for code in codes.as_slice() {
        copy.push(copy_code(alloc, code)?)?;
    }
    Ok(copy)
}

/// A copy of a data segment.
fn copy_segment(alloc: Global, segment: &Segment) -> Result<Segment, OutOfMemory>
    ensures { IfOk result (λ copy. copy ≡ segment.now) }
{
    Ok(Segment {
        memory: segment.memory,
        offset: copy_expression(alloc, &segment.offset)?,
        bytes: segment.bytes.copy(alloc)?,
    })
}

/// A copy of a list of them.
fn copy_segments(
    alloc: Global,
    segments: &Members<Segment>,
) -> Result<Members<Segment>, OutOfMemory>
    ensures { IfOk result (λ copy. copy ≡ segments.now) }
{
    let mut copy = Members::new(alloc);
    for segment in segments.as_slice() {
        copy.push(copy_segment(alloc, segment)?)?;
    }
    Ok(copy)
}
