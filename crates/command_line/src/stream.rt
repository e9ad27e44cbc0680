//! The name of the file with the stream.

ghost use Rattle.std.specs.Prelude.{◌≡◌, Some, option_map, string_bytes};
ghost use Rattle.command_line.specs.Chosen.{named_stream};

use crate::choice::Options;

/// The name of the file with the stream. Without one, and where it is `-`, standard input is read.
pub fn stream_name(options: &Options) -> Option<&str>
    ensures { option_map (λ n. n.now) result ≡ named_stream (option_map (λ s. string_bytes s) options.now.file) }
{
    match &options.file {
        Some(name) => unless_dash(name.as_str()),
        None => None,
    }
}

fn unless_dash(name: &str) -> Option<&str>
    ensures { option_map (λ n. n.now) result ≡ named_stream (Some name.now) }
{
    if name == "-" { None } else { Some(name) }
}
