ghost use Rattle.std.specs.Prelude.{◌≡◌};
ghost use Rattle.mf_model.specs.Tokens.{is_word};
ghost use Rattle.mf_lex.specs.Bytes.{IsOfClass};

/// What a byte outside comments may be.
#[derive(Clone, Copy)]
pub enum Class {
    Blank,
    Comment,
    Bracket,
    Word,
    Bad,
}

#[tactic(auto, unfolding(mf_model::specs::Tokens::is_blank, mf_model::specs::Tokens::is_bracket, mf_model::specs::Tokens::is_bad, mf_model::specs::Tokens::is_word))]
pub fn class_of(byte: u8) -> Class
    ensures { IsOfClass result byte }
{
    match byte {
        9 | 10 | 12 | 13 | 32 => Class::Blank,
        b';' => Class::Comment,
        b'(' | b')' => Class::Bracket,
        33..=126 => Class::Word,
        _ => Class::Bad,
    }
}

#[tactic(auto, unfolding(mf_model::specs::Tokens::is_bracket, mf_model::specs::Tokens::is_word))]
pub fn is_word(byte: u8) -> bool
    ensures { result ≡ is_word byte }
{
    byte >= 33 && byte <= 126 && !(byte == b'(' || byte == b')') && byte != b';'
}
