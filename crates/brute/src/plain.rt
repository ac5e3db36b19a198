ghost use Rattle.std.specs.Prelude.{◌≤◌, length};

use expressions::Expr;

/// Whether the word is a word of the expression, found by trying all ways to cut it.
#[cycle(words)]
pub fn is_word(e: &Expr, word: &[usize]) -> bool {
    match e {
        Expr::Event(b) => matches!(word, [a] if *a == usize::from(*b)),
        Expr::One => word.is_empty(),
        Expr::Zero => false,
        Expr::Sum(a, b) => is_word(a, word) || is_word(b, word),
        Expr::Cat(a, b) => is_cut(a, b, word, 0),
        Expr::Star(a) => word.is_empty() || is_cut(a, e, word, 1),
    }
}

// Whether a cut gives a word of each of the two, the first of which has at least so many events.
#[cycle(words)]
fn is_cut(a: &Expr, b: &Expr, word: &[usize], shortest: usize) -> bool {
    (shortest..=word.len()).any(
        |cut|
            requires { cut ≤ length word.now }
        { is_word(a, &word[..cut]) && is_word(b, &word[cut..]) },
    )
}
