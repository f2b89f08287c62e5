//! The built-in functions.
ghost use Rattle.std.specs.Prelude.{◌≡◌, map};
ghost use Rattle.justfile_builtins.specs.Functions.{arguments_among, arguments_of};

/// The numbers of arguments that a function takes.
#[derive(Clone, Copy, Debug, PartialEq, Eq)]
pub struct Arguments {
    /// The least number.
    pub least: usize,
    /// The greatest number. `None` if any number from the least one on will do.
    pub most: Option<usize>,
}

/// The numbers of arguments: one number, or all from the first one on, up to the last one.
macro_rules! arguments {
    ($count:literal) => {
        Arguments {
            least: $count,
            most: Some($count),
        }
    };
    ($least:literal ..) => {
        Arguments {
            least: $least,
            most: None,
        }
    };
    ($least:literal ..= $most:literal) => {
        Arguments {
            least: $least,
            most: Some($most),
        }
    };
}

/// All built-in functions, by their names in order, with the numbers of arguments that each takes.
/// Where that isn't known, it is any number. Each name that ends in `_directory` or in
/// `_directory_native` is there with `_dir` in its place, too.
pub static FUNCTIONS: [(&str, Arguments); 91] = [
    ("absolute_path", arguments!(1)),
    ("append", arguments!(2)),
    ("arch", arguments!(0)),
    ("blake3", arguments!(1)),
    ("blake3_file", arguments!(1)),
    ("bool", arguments!(0..)),
    ("cache_dir", arguments!(0)),
    ("cache_directory", arguments!(0)),
    ("canonicalize", arguments!(1)),
    ("capitalize", arguments!(1)),
    ("choose", arguments!(2)),
    ("clean", arguments!(1)),
    ("config_dir", arguments!(0)),
    ("config_directory", arguments!(0)),
    ("config_local_dir", arguments!(0)),
    ("config_local_directory", arguments!(0)),
    ("data_dir", arguments!(0)),
    ("data_directory", arguments!(0)),
    ("data_local_dir", arguments!(0)),
    ("data_local_directory", arguments!(0)),
    ("datetime", arguments!(1)),
    ("datetime_utc", arguments!(1)),
    ("encode_uri_component", arguments!(1)),
    ("env", arguments!(1..=2)),
    ("env_var", arguments!(1)),
    ("env_var_or_default", arguments!(2)),
    ("error", arguments!(1)),
    ("executable_dir", arguments!(0)),
    ("executable_directory", arguments!(0)),
    ("extension", arguments!(1)),
    ("file_name", arguments!(1)),
    ("file_stem", arguments!(1)),
    ("home_dir", arguments!(0)),
    ("home_directory", arguments!(0)),
    ("invocation_dir", arguments!(0)),
    ("invocation_dir_native", arguments!(0)),
    ("invocation_directory", arguments!(0)),
    ("invocation_directory_native", arguments!(0)),
    ("is_dependency", arguments!(0)),
    ("join", arguments!(2..)),
    ("join_list", arguments!(0..)),
    ("just_executable", arguments!(0)),
    ("just_pid", arguments!(0)),
    ("justfile", arguments!(0)),
    ("justfile_dir", arguments!(0)),
    ("justfile_directory", arguments!(0)),
    ("kebabcase", arguments!(1)),
    ("lowercamelcase", arguments!(1)),
    ("lowercase", arguments!(1)),
    ("module_dir", arguments!(0)),
    ("module_directory", arguments!(0)),
    ("module_file", arguments!(0)),
    ("num_cpus", arguments!(0)),
    ("num_jobs", arguments!(0..)),
    ("os", arguments!(0)),
    ("os_family", arguments!(0)),
    ("parent_dir", arguments!(1)),
    ("parent_directory", arguments!(1)),
    ("path_exists", arguments!(1)),
    ("prepend", arguments!(2)),
    ("quote", arguments!(1)),
    ("read", arguments!(1)),
    ("replace", arguments!(3)),
    ("replace_regex", arguments!(3)),
    ("require", arguments!(1)),
    ("semver_matches", arguments!(2)),
    ("sha256", arguments!(1)),
    ("sha256_file", arguments!(1)),
    ("shell", arguments!(1..)),
    ("shoutykebabcase", arguments!(1)),
    ("shoutysnakecase", arguments!(1)),
    ("show", arguments!(0..)),
    ("snakecase", arguments!(1)),
    ("source_dir", arguments!(0)),
    ("source_directory", arguments!(0)),
    ("source_file", arguments!(0)),
    ("split", arguments!(0..)),
    ("style", arguments!(1)),
    ("titlecase", arguments!(1)),
    ("trim", arguments!(1)),
    ("trim_end", arguments!(1)),
    ("trim_end_match", arguments!(2)),
    ("trim_end_matches", arguments!(2)),
    ("trim_start", arguments!(1)),
    ("trim_start_match", arguments!(2)),
    ("trim_start_matches", arguments!(2)),
    ("uppercamelcase", arguments!(1)),
    ("uppercase", arguments!(1)),
    ("uuid", arguments!(0)),
    ("which", arguments!(1)),
    ("without_extension", arguments!(1)),
];

/// Returns the numbers of arguments that the built-in function with this name takes, or `None` if
/// there is none.
#[tactic(auto, unfolding(crate::specs::Functions::arguments_of))]
pub fn function_arguments(name: &str) -> Option<Arguments>
    ensures { result ≡ arguments_of name.now }
{
    arguments_among(name, &FUNCTIONS)
}

/// Returns the numbers of arguments that the first of these functions with this name takes.
fn arguments_among(name: &str, functions: &[(&str, Arguments)]) -> Option<Arguments>
    ensures { result ≡ arguments_among name.now (map (λ f. (f.0.now, f.1)) functions.now) }
{
    functions
        .iter()
        .find(|function| name == function.0)
        .map(|function| function.1)
}
