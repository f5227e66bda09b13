//! Names with their prefixes (Namespaces in XML 1.0, section 4).

ghost use Rattle.std.specs.Prelude.{◌≡◌, position};
ghost use Rattle.std.specs.List.{list_all};
ghost use Rattle.std.specs.Option.{option_map};
ghost use Rattle.std.specs.Str.{is_utf8};
ghost use Rattle.tree_reader.specs.Names.{is_colon, is_simple, is_name_start, is_local_name, qualified};
ghost use Rattle.tree_reader.specs.Views.{qualified_of};

/// A name as written.
#[derive(Clone, Copy)]
pub(crate) struct SplitName<'a> {
    /// Empty if there is none.
    pub prefix: &'a [u8],
    pub local: &'a [u8],
}

/// Splits a name, which consists of name bytes.
#[tactic(auto, unfolding(crate::specs::Names::qualified))]
pub(crate) fn qualified(name: &[u8]) -> Option<SplitName<'_>>
    ensures { option_map qualified_of result ≡ qualified name.now }
{
    match colon_at(name) {
        None => {
            if !is_local_name(name) {
                return None;
            }
            Some(SplitName {
                prefix: b"",
                local: name,
            })
        }
        Some(at) => {
            let (prefix, local) = (&name[..at], &name[at + 1..]);
            if !is_local_name(prefix) || !is_local_name(local) {
                return None;
            }
            Some(SplitName { prefix, local })
        }
    }
}

fn colon_at(name: &[u8]) -> Option<usize>
    ensures { result ≡ position is_colon name.now }
{
    name.iter().position(|byte| *byte == b':')
}

/// Whether name bytes are a name without a prefix.
#[tactic(auto, unfolding(crate::specs::Names::is_local_name))]
pub(crate) fn is_local_name(name: &[u8]) -> bool
    ensures { result ≡ is_local_name name.now }
{
    let Some(first) = name.first() else {
        return false;
    };
    if is_simple(name) {
        return is_name_start(*first);
    }
    is_name_start(*first) && !name.contains(&b':') && is_utf8(name)
}

/// Whether all bytes are ASCII and none is a colon. There is no early exit, so that many bytes are tested at once.
fn is_simple(name: &[u8]) -> bool
    ensures { result ≡ list_all is_simple name.now }
{
    let mut simple = true;
    for byte in name {
        simple &= is_simple_byte(*byte);
    }
    simple
}

fn is_simple_byte(byte: u8) -> bool
    ensures { result ≡ is_simple byte }
{
    byte < 128 && byte != b':'
}

fn is_name_start(byte: u8) -> bool
    ensures { result ≡ is_name_start byte }
{
    byte.is_ascii_alphabetic() || byte == b'_' || byte >= 128
}

fn is_utf8(bytes: &[u8]) -> bool
    ensures { result ≡ is_utf8 bytes.now }
{
    match str::from_utf8(bytes) {
        Ok(_) => true,
        Err(_) => false,
    }
}
