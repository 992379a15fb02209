ghost use Rattle.std.specs.Prelude.{◌≡◌};
ghost use Rattle.mf_top.specs.Texts.{kind_text};

use mf_input::RefusalKind;

/// The words for what is wrong with a file.
pub(crate) fn kind_text(kind: RefusalKind) -> &'static [u8]
    ensures { result.now ≡ kind_text kind }
{
    match kind {
        RefusalKind::BadByte => b"bad byte",
        RefusalKind::WordTooLong => b"word too long",
        RefusalKind::Unbalanced => b"unbalanced",
        RefusalKind::TooDeep => b"too deep",
        RefusalKind::UnknownRequirement => b"unknown requirement",
        RefusalKind::LeftOut => b"left out",
        RefusalKind::BadForm => b"bad form",
        RefusalKind::DeclaredTwice => b"declared twice",
        RefusalKind::TypeCycle => b"type cycle",
        RefusalKind::UnknownName => b"unknown name",
        RefusalKind::WrongCount => b"wrong count",
        RefusalKind::WrongType => b"wrong type",
        RefusalKind::TooMany => b"too many",
        RefusalKind::WideNumber => b"wide number",
        RefusalKind::NotLinear => b"not linear",
    }
}
