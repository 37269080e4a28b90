//! Sinks and stores in memory.

use crate::parse::{bytes, decimal, numbers, shown};
use anyhow::{Result, bail, ensure};
use sr_base::{MemSink, MemStore, Store, put_all};
use std::alloc::Global;

/// Answers `NAME MOST FAILING BYTES`: whether a sink takes all, what it has taken, and its faults.
pub fn answer_sink(alloc: Global, case: &[&str]) -> Result<String> {
    let [_, most, failing, pieces] = case else {
        bail!("a case is a name, bytes a put, puts that fail and bytes");
    };
    let most = usize::try_from(decimal(most)?)?;
    ensure!(most > 0, "a sink takes no bytes");
    let mut sink = MemSink::new(most, numbers(alloc, failing)?);
    let answer = put_all(&mut sink, &bytes(alloc, pieces)?);
    let taken = shown(alloc, sink.bytes())?;
    Ok(format!(in alloc; "{answer:?} taken={taken} faults={}", sink.count())?)
}

/// Makes a call of a store, and returns its answer.
fn call(alloc: Global, store: &mut MemStore, text: &str) -> Result<String> {
    let parts: Vec<&str> = text.split(':').collect(alloc)?;
    let [verb, name, what] = parts.as_slice() else {
        bail!("{text} is no call");
    };
    match *verb {
        "add" => {
            store.add(name, &bytes(alloc, what)?)?;
            Ok(shown(alloc, store.file(name).unwrap_or(&[]))?)
        }
        "read" => match store.read(alloc, name, usize::try_from(decimal(what)?)?) {
            Ok(content) => Ok(shown(alloc, &content)?),
            Err(error) => Ok(format!(in alloc; "{error:?}")?),
        },
        "write" => {
            let answer = store.write(name, &bytes(alloc, what)?);
            let content = shown(alloc, store.file(name).unwrap_or(&[]))?;
            Ok(format!(in alloc; "{answer:?}={content}")?)
        }
        _ => bail!("{text} is no call"),
    }
}

/// Answers `NAME FAILING CALL..`: the answer of each call of a store, and its faults.
pub fn answer_store(alloc: Global, case: &[&str]) -> Result<String> {
    let [_, failing, calls @ ..] = case else {
        bail!("a case is a name, calls that fail and calls");
    };
    let mut store = MemStore::new(numbers(alloc, failing)?);
    let mut answer = String::new(alloc);
    for text in calls {
        let outcome = call(alloc, &mut store, text)?;
        write!(answer, "{outcome} ")?;
    }
    write!(answer, "faults={}", store.count())?;
    Ok(answer)
}
