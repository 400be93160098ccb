//! Copies of documents.

ghost use Rattle.std.specs.Prelude.{◌≡◌, IfOk};

use documents::{Document, Script, ScriptCall, Scripts};
use norm_lang::list::Listed;
use std::alloc::{AllocError, Global};

fn copied_call(alloc: Global, call: &ScriptCall) -> Result<ScriptCall, AllocError>
    ensures { IfOk result (λ c. c ≡ call.now) }
{
    let name = Listed::from_slice(alloc, call.name.items())?;
    let args = Listed::from_slice(alloc, call.args.items())?;
    Ok(ScriptCall {
        line: call.line,
        name,
        args,
    })
}

fn copied_script(alloc: Global, script: &[ScriptCall]) -> Result<Script, AllocError>
    ensures { IfOk result (λ calls. calls ≡ script.now) }
{
    let mut copy = Listed::empty(alloc);
    for call in script {
        copy.push(copied_call(alloc, call)?)?;
    }
    Ok(copy)
}

fn copied_scripts(alloc: Global, scripts: &[Script]) -> Result<Scripts, AllocError>
    ensures { IfOk result (λ lists. lists ≡ scripts.now) }
{
    let mut copy = Listed::empty(alloc);
    for script in scripts {
        copy.push(copied_script(alloc, script.items())?)?;
    }
    Ok(copy)
}

/// An equal document.
pub(crate) fn copied(alloc: Global, document: &Document) -> Result<Document, AllocError>
    ensures { IfOk result (λ copy. copy ≡ document.now) }
{
    let text = document.text.copy(alloc)?;
    let slots = Listed::from_slice(alloc, document.slots.items())?;
    let scripts = copied_scripts(alloc, document.scripts.items())?;
    let schedule = Listed::from_slice(alloc, document.schedule.items())?;
    Ok(Document {
        text,
        slots,
        first: document.first,
        last: document.last,
        fuel: document.fuel,
        scripts,
        schedule,
    })
}
