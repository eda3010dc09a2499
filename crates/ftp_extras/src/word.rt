//! The words that clients send beside the profile's.

ghost use Rattle.std.specs.Prelude.{◌≡◌};
ghost use Rattle.ftp_extras.specs.Words.{extra_word_of, is_open_word};

use ftp_base::value_named_in_any_case;

/// A word that is no command's in the profile, and STOU, which is one there without a name alone.
#[derive(Clone, Copy, Debug, PartialEq, Eq)]
pub enum ExtraWord {
    Pwd,
    Xpwd,
    Cdup,
    Xcup,
    Mkd,
    Xmkd,
    Rmd,
    Xrmd,
    Dele,
    Rnfr,
    Rnto,
    Size,
    Mdtm,
    Mfmt,
    Mlst,
    Feat,
    Opts,
    Syst,
    Stat,
    Help,
    Allo,
    Mode,
    Stru,
    Epsv,
    Stou,
    Clnt,
    Pbsz,
    Prot,
}

static WORDS: [(&[u8], ExtraWord); 28] = [
    (b"pwd", ExtraWord::Pwd),
    (b"xpwd", ExtraWord::Xpwd),
    (b"cdup", ExtraWord::Cdup),
    (b"xcup", ExtraWord::Xcup),
    (b"mkd", ExtraWord::Mkd),
    (b"xmkd", ExtraWord::Xmkd),
    (b"rmd", ExtraWord::Rmd),
    (b"xrmd", ExtraWord::Xrmd),
    (b"dele", ExtraWord::Dele),
    (b"rnfr", ExtraWord::Rnfr),
    (b"rnto", ExtraWord::Rnto),
    (b"size", ExtraWord::Size),
    (b"mdtm", ExtraWord::Mdtm),
    (b"mfmt", ExtraWord::Mfmt),
    (b"mlst", ExtraWord::Mlst),
    (b"feat", ExtraWord::Feat),
    (b"opts", ExtraWord::Opts),
    (b"syst", ExtraWord::Syst),
    (b"stat", ExtraWord::Stat),
    (b"help", ExtraWord::Help),
    (b"allo", ExtraWord::Allo),
    (b"mode", ExtraWord::Mode),
    (b"stru", ExtraWord::Stru),
    (b"epsv", ExtraWord::Epsv),
    (b"stou", ExtraWord::Stou),
    (b"clnt", ExtraWord::Clnt),
    (b"pbsz", ExtraWord::Pbsz),
    (b"prot", ExtraWord::Prot),
];

/// The word that these bytes spell.
pub(crate) fn word_of(bytes: &[u8]) -> Option<ExtraWord>
    ensures { result ≡ extra_word_of bytes.now }
{
    value_named_in_any_case(&WORDS, bytes)
}

/// Says whether the word is answered before the login too.
pub(crate) fn is_open(word: ExtraWord) -> bool
    ensures { result ≡ is_open_word word }
{
    matches!(
        word,
        ExtraWord::Feat
            | ExtraWord::Opts
            | ExtraWord::Syst
            | ExtraWord::Help
            | ExtraWord::Clnt
            | ExtraWord::Pbsz
            | ExtraWord::Prot
    )
}
