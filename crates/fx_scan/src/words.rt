ghost use Rattle.std.specs.Prelude.{◌≡◌};
ghost use Rattle.fx_scan.specs.Tables.{word_of};

use fx_table::CaseTable;

/// The words that are reserved, and so are no names.
#[derive(Clone, Copy, Debug, PartialEq, Eq)]
pub enum Word {
    And,
    Builtin,
    Else,
    Empty,
    Exists,
    If,
    Import,
    In,
    Not,
    Option,
    Or,
    Package,
    Return,
    Test,
    Testcase,
    Then,
}

macro_rules! words {
    ($($text:literal is $word:ident),*) => { [$(($text, Word::$word)),*] };
}

/// The reserved word that is this text, or None where it is none.
pub fn reserved(text: &[u8]) -> Option<Word>
    ensures { result ≡ word_of text.now }
{
    let rows: [(&[u8], Word); 16] = words![
        b"and" is And, b"builtin" is Builtin, b"else" is Else, b"empty" is Empty,
        b"exists" is Exists, b"if" is If, b"import" is Import, b"in" is In,
        b"not" is Not, b"option" is Option, b"or" is Or, b"package" is Package,
        b"return" is Return, b"test" is Test, b"testcase" is Testcase, b"then" is Then
    ];
    match CaseTable::over(&rows) {
        Some(table) => table.find(&text).copied(),
        None => unreachable!(),
    }
}
