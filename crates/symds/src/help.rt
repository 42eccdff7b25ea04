//! What the program prints when it is asked for help or for its version.
ghost use Rattle.std.specs.Prelude.{◌≡◌};
ghost use Rattle.symds.specs.Help as wanted;

/// The commands with their words, and the options.
pub fn help_text() -> &'static str
    ensures { result.now ≡ wanted.help_text }
{
    "symds plays rehearsals of nodes that replicate their tables to one another.\n\nusage: symds [OPTIONS] COMMAND [WORDS]\n\ncommands:\n  rehearse             plays the scenario on standard input under the configuration\n                       and prints what each step answers\n\noptions:\n  --folder FOLDER      the folder of the configuration symds.toml [default: .]\n  --keeper KEEPER      journal or sqlite, where a node keeps its records [default: journal]\n  --port PORT          the port of loopback [default: 31415]\n  -h, --help           prints this text\n  -V, --version        prints the version\n\nNo command uses --keeper or --port yet. Exit status 0 is success; any other is named on\nstandard error with what to do about it.\n"
}

/// The program's name and version.
pub fn version_text() -> &'static str
    ensures { result.now ≡ wanted.version_text }
{
    "symds 0.1.0\n"
}
