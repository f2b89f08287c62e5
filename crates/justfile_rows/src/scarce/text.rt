//! The justfile that is lexed, parsed and printed.

/// The justfile.
pub(crate) static TEXT: &str = "\
# use PowerShell instead of sh:
set shell := [\"powershell.exe\", \"-c\"]

hello:
  Write-Host \"Hello, world!\"
foo:
  a

   b{{if x==y{'1'}else{if z{\"2\"}else{'3'}}}}c
[  env(bb, 'x')]
[env(aaa, 'y')]
foo:
[arg(\"n\", max=\"10\", long, min=x'2')]
foo +n:
foo: *(b *x / y)
x := f'a{{ f\"b{{c}}\" }}d'
";

/// Its printed text.
pub(crate) static PRINTED: &str = "\
# use PowerShell instead of sh:
set shell := [\"powershell.exe\", \"-c\"]

hello:
    Write-Host \"Hello, world!\"
foo:
    a

     b{{ if x == y { '1' } else if z { \"2\" } else { '3' } }}c
[env(aaa, 'y')]
[env(bb, 'x')]
foo:
[arg(\"n\", long, min='2', max='10')]
foo +n:
foo: *(b *x / y)
x := f'a{{ f\"b{{ c }}\" }}d'
";

/// How many numbers its bindings get: those of one parameter and one assignment.
pub(crate) const BINDINGS: u32 = 2;

/// How many numbers its recipes get.
pub(crate) const RECIPES: u32 = 5;
