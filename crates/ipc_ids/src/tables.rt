//! The names of methods and codes in scripts and traces.
ghost use Rattle.std.specs.Prelude.{◌≡◌};
ghost use Rattle.ipc_ids.specs.Tables.{named_in, rows, method_names, code_names};

use crate::methods;
use crate::numbers::Code;

/// Each method's name with its number.
pub const METHOD_NAMES: [(&[u8], u64); 7] = [
    (b"PHONE_HUNGUP", methods::PHONE_HUNGUP),
    (b"CONNECT_TO_ME", methods::CONNECT_TO_ME),
    (b"CONNECT_ME_TO", methods::CONNECT_ME_TO),
    (b"DATA_WRITE", methods::DATA_WRITE),
    (b"DATA_READ", methods::DATA_READ),
    (b"SHARE_OUT", methods::SHARE_OUT),
    (b"SHARE_IN", methods::SHARE_IN),
];

/// Each code's name with its number.
pub const CODE_NAMES: [(&[u8], u64); 10] = [
    (b"EOK", Code::EOK.0),
    (b"ENOENT", Code::ENOENT.0),
    (b"EPERM", Code::EPERM.0),
    (b"EEXIST", Code::EEXIST.0),
    (b"EINVAL", Code::EINVAL.0),
    (b"ELIMIT", Code::ELIMIT.0),
    (b"EHANGUP", Code::EHANGUP.0),
    (b"EFORWARD", Code::EFORWARD.0),
    (b"EBUSY", Code::EBUSY.0),
    (b"ENOMEM", Code::ENOMEM.0),
];

/// What stands beside a word in a table.
pub fn look_up<T: Copy>(table: &[(&[u8], T)], word: &[u8]) -> Option<T>
    ensures { result ≡ named_in (rows table.now) word.now }
{
    for (name, value) in table {
        if *name == word {
            return Some(*value);
        }
    }
    None
}

/// The number of the method with this name.
pub fn method_named(word: &[u8]) -> Option<u64>
    ensures { result ≡ named_in method_names word.now }
{
    look_up(&METHOD_NAMES, word)
}

/// The number of the code with this name.
pub fn code_named(word: &[u8]) -> Option<u64>
    ensures { result ≡ named_in code_names word.now }
{
    look_up(&CODE_NAMES, word)
}
