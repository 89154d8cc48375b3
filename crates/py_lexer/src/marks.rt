// Marks: operators and delimiters.
ghost use Rattle.std.specs.Prelude.{◌≡◌, ◌≤◌, ◌==◌, length, cond, take, drop, Some, None};
ghost use Rattle.lexical_form.specs.MarkReader.{mark_at};

/// How many bytes the longest mark at the front has; 0 where none is there.
pub fn mark_len(bytes: &[u8]) -> usize
    ensures is { mark_at bytes.now
        ≡ cond (result == 0) None (Some (take result bytes.now, drop result bytes.now)) }
    ensures in_range { result ≤ length bytes.now }
{
    match bytes {
        [b'/', b'/', b'=', ..] => 3,
        [b'*', b'*', ..] | [b'/', b'/', ..] => 2,
        [
            b'+' | b'-' | b'*' | b'%' | b'=' | b'!' | b'<' | b'>',
            b'=',
            ..
        ] => 2,
        [b'+' | b'-' | b'*' | b'%' | b'=' | b'<' | b'>', ..] => 1,
        [
            b'(' | b')' | b'[' | b']' | b'{' | b'}' | b',' | b':' | b'.' | b'@',
            ..
        ] => 1,
        _ => 0,
    }
}
