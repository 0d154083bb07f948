//! The tokens of a file with the bytes that they lie in.

ghost use Rattle.std.specs.Prelude.{◌≡◌, ◌≤◌, ◌+◌, length};
ghost use Rattle.c_lexer.specs.Kinds.{AllSpelled};
ghost use Rattle.c_token.specs.Spelling.{text_of};

use c_token::Token;

/// The tokens of a file.
#[derive(Drop)]
pub struct Tokens {
    pub tokens: Vec<Token>,
    /// 1 plus the number of the file's newline bytes.
    pub last_line: u32,
    /// The bytes that the tokens lie in: the file without splices, and what is put behind it later.
    pub bytes: Vec<u8>,
    pub ghost spelled: { AllSpelled bytes.items tokens.items },
}

/// The text of a token that lies in these bytes.
pub fn text_of(bytes: &[u8], token: Token) -> &[u8]
    requires { token.start + token.length ≤ length bytes.now }
    ensures { result.now ≡ text_of bytes.now token }
{
    let (_, rest) = bytes.split_at(token.start as usize);
    rest.split_at(token.length as usize).0
}
