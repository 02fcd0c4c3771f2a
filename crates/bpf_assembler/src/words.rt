//! The words of a line of program text.
ghost use Rattle.std.specs.Prelude.{◌≡◌, ◌<◌, length, reverse, option_map, IfSome};
ghost use Rattle.std.specs.List.{list_all, position};
ghost use Rattle.bpf_assembler.specs.Words.{is_blank, is_semicolon, is_comma, is_sign, trim_start, trim, content_of, first_word, after_word, is_mnemonic_byte};
ghost use Rattle.bpf_assembler.specs.Words.{is_label_byte, is_label, split_operand};

const MAX_LABEL_LENGTH: usize = 32;

fn is_blank(byte: u8) -> bool
    ensures { result ≡ is_blank byte }
{
    byte == b' ' || byte == b'\t'
}

/// Returns the bytes without the blanks and tabs at both ends.
pub(crate) fn trim(bytes: &[u8]) -> &[u8]
    ensures { result.now ≡ trim bytes.now }
{
    trim_end(trim_start(bytes))
}

fn trim_start(bytes: &[u8]) -> &[u8]
    ensures { result.now ≡ trim_start bytes.now }
{
    let mut rest = bytes;
    while let [b' ' | b'\t', after @ ..] = rest {
        rest = after;
    }
    rest
}

fn trim_end(bytes: &[u8]) -> &[u8]
    ensures { result.now ≡ reverse (trim_start (reverse bytes.now)) }
{
    let mut rest = bytes;
    while let [before @ .., b' ' | b'\t'] = rest {
        rest = before;
    }
    rest
}

/// Returns a line's content, without its comment and without blanks and tabs at both ends.
pub(crate) fn content_of(line: &[u8]) -> &[u8]
    ensures { result.now ≡ content_of line.now }
{
    match find_semicolon(line) {
        Some(end) => trim(&line[..end]),
        None => trim(line),
    }
}

/// Returns the first word, and the text after it.
pub(crate) fn split_word(content: &[u8]) -> (&[u8], &[u8])
    ensures word { result.0.now ≡ first_word content.now }
    ensures rest { result.1.now ≡ after_word content.now }
{
    match find_blank(content) {
        Some(end) => (&content[..end], trim(&content[end + 1..])),
        None => (content, &[]),
    }
}

/// Returns the operand before the first comma, and the text after the comma.
pub(crate) fn split_operand(operands: &[u8]) -> Option<(&[u8], &[u8])>
    ensures { option_map (λ parts. (parts.0.now, parts.1.now)) result ≡ split_operand operands.now }
{
    match find_comma(operands) {
        Some(end) => Some((trim(&operands[..end]), trim(&operands[end + 1..]))),
        None => None,
    }
}

fn find_semicolon(line: &[u8]) -> Option<usize>
    ensures value { result ≡ position is_semicolon line.now }
    ensures within { IfSome result (λ index. index < length line.now) }
{
    line.iter().position(|byte| *byte == b';')
}

fn find_blank(content: &[u8]) -> Option<usize>
    ensures value { result ≡ position is_blank content.now }
    ensures within { IfSome result (λ index. index < length content.now) }
{
    content.iter().position(|byte| is_blank(*byte))
}

fn find_comma(operands: &[u8]) -> Option<usize>
    ensures value { result ≡ position is_comma operands.now }
    ensures within { IfSome result (λ index. index < length operands.now) }
{
    operands.iter().position(|byte| *byte == b',')
}

/// Returns the index of an offset's sign.
pub(crate) fn find_sign(text: &[u8]) -> Option<usize>
    ensures value { result ≡ position is_sign text.now }
    ensures within { IfSome result (λ index. index < length text.now) }
{
    text.iter().position(|byte| *byte == b'+' || *byte == b'-')
}

/// A mnemonic consists of lowercase letters, digits and underscores.
pub(crate) fn is_mnemonic(word: &[u8]) -> bool
    ensures { result ≡ list_all is_mnemonic_byte word.now }
{
    word.iter().all(|byte| byte.is_ascii_lowercase() || byte.is_ascii_digit() || *byte == b'_')
}

/// A label has 1 to 32 letters, digits and underscores, and doesn't begin with a digit.
pub(crate) fn is_label(name: &[u8]) -> bool
    ensures { result ≡ is_label name.now }
{
    if name.is_empty() || name.len() > MAX_LABEL_LENGTH {
        return false;
    }
    if name[0].is_ascii_digit() {
        return false;
    }
    has_label_bytes(name)
}

fn has_label_bytes(name: &[u8]) -> bool
    ensures { result ≡ list_all is_label_byte name.now }
{
    name.iter()
        .all(|byte| byte.is_ascii_alphanumeric() || *byte == b'_')
}
