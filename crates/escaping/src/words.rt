// The words of the rule language that no field can go by.
ghost use Rattle.escaping.specs.Escape.{reserved};
ghost use Rattle.std.specs.Prelude.{◌≡◌};

const WORDS: [&[u8]; 21] = [
    b"true",
    b"false",
    b"null",
    b"in",
    b"as",
    b"break",
    b"const",
    b"continue",
    b"else",
    b"for",
    b"function",
    b"if",
    b"import",
    b"let",
    b"loop",
    b"package",
    b"namespace",
    b"return",
    b"var",
    b"void",
    b"while",
];

pub fn is_reserved(name: &[u8]) -> bool
    ensures { result ≡ reserved name.now }
{
    WORDS.contains(&name)
}
