//! Calls of `command_line` that say what words ask for.
use call_lines::push_no_memory;
use cddl_tool::{Options, Use, options, options_of_arguments, stream_name};
use std::alloc::{AllocError, Global};

// The options of words with a space between them.
pub(crate) fn options_of(alloc: Global, words: &str) -> Result<Result<Options, Use>, AllocError> {
    let mut list = Vec::new(alloc);
    for word in words.split(' ') {
        list.push(word)?;
    }
    Ok(options(alloc, &list))
}

// The same of words that are owned, as a program has its arguments.
fn options_of_owned(alloc: Global, words: &str) -> Result<Result<Options, Use>, AllocError> {
    let mut list = Vec::new(alloc);
    for word in words.split(' ') {
        list.push(String::from_str(alloc, word)?)?;
    }
    Ok(options_of_arguments(alloc, &list))
}

pub(crate) fn push_options(alloc: Global, words: &str, out: &mut String) -> Result<(), AllocError> {
    push_told(alloc, &options_of(alloc, words)?, out)
}

pub(crate) fn push_owned(alloc: Global, words: &str, out: &mut String) -> Result<(), AllocError> {
    push_told(alloc, &options_of_owned(alloc, words)?, out)
}

fn push_told(
    alloc: Global,
    told: &Result<Options, Use>,
    out: &mut String,
) -> Result<(), AllocError> {
    match told {
        Ok(options) => {
            push_names(alloc, options, out)?;
            push_numbers(alloc, options, out)
        }
        Err(Use::Words(_)) => out.push_str("Words"),
        Err(Use::Memory) => push_no_memory(out),
    }
}

// The name of the file with the stream that the words give.
pub(crate) fn push_stream_name(
    alloc: Global,
    words: &str,
    out: &mut String,
) -> Result<(), AllocError> {
    match options_of(alloc, words)? {
        Ok(options) => out.push_str(stream_name(&options).unwrap_or("standard input")),
        Err(Use::Words(_)) => out.push_str("Words"),
        Err(Use::Memory) => push_no_memory(out),
    }
}

fn push_names(alloc: Global, options: &Options, out: &mut String) -> Result<(), AllocError> {
    let task = options.task;
    out.push_str(format!(in alloc; "{task:?}")?.as_str())?;
    push_name(", spec ", &options.spec, out)?;
    push_name(", root ", &options.root, out)?;
    push_name(", file ", &options.file, out)
}

fn push_name(text: &str, name: &Option<String>, out: &mut String) -> Result<(), AllocError> {
    if let Some(name) = name {
        out.push_str(text)?;
        out.push_str(name.as_str())?;
    }
    Ok(())
}

fn push_numbers(alloc: Global, options: &Options, out: &mut String) -> Result<(), AllocError> {
    let depth = options.depth;
    let item_bytes = options.item_bytes;
    let steps = options.steps;
    out.push_str(format!(in alloc; ", limits {depth} {item_bytes} {steps}")?.as_str())?;
    if options.quiet {
        out.push_str(", quiet")?;
    }
    if options.deterministic {
        out.push_str(", deterministic")?;
    }
    if options.explain {
        out.push_str(", explain")?;
    }
    Ok(())
}
