//! Bytes that are copied into memory that is there.
ghost use Rattle.std.specs.Prelude.{◌≡◌, ◌+◌, ◌≤◌, ◌++◌, length, min, take, drop, replicate, vec_len, vec_capacity};

/// Copies bytes from the beginning of `from` to the prefix of `buf`, at most `most` and as many as both hold, and says
/// how many. The rest of `buf` is unchanged.
pub(crate) fn copy_prefix(from: &[u8], buf: &mut [u8], most: usize) -> usize
    ensures count { result ≡ min (min most (length buf.old)) (length from.now) }
    ensures prefix { take result buf.new ≡ take result from.now }
    ensures rest { drop result buf.new ≡ drop result buf.old }
{
    let count = most.min(buf.len()).min(from.len());
    buf[..count].copy_from_slice(&from[..count]);
    count
}

/// Puts the bytes after those of the list, which has room for them.
pub(crate) fn append(list: &mut Vec<u8>, bytes: &[u8])
    requires { vec_len list.old + length bytes.now ≤ vec_capacity list.old }
    ensures items { list.new.items ≡ list.old.items ++ bytes.now }
    ensures capacity { vec_capacity list.new ≡ vec_capacity list.old }
{
    for byte in bytes {
        list.push_reserved(*byte);
    }
}

/// Puts n zeros after the bytes of the list, which has room for them.
pub(crate) fn append_zeros(list: &mut Vec<u8>, n: usize)
    requires { vec_len list.old + n ≤ vec_capacity list.old }
    ensures items { list.new.items ≡ list.old.items ++ replicate n 0 }
    ensures len { vec_len list.new ≡ vec_len list.old + n }
    ensures capacity { vec_capacity list.new ≡ vec_capacity list.old }
{
    for i in 0..n {
        list.push_reserved(0);
    }
}
