// A name as C takes it: an array that ends in zeros.
ghost use Rattle.std.specs.Prelude.{◌≡◌, ◌<◌, length};
ghost use Rattle.file_status.specs.Names.{is_path, path_room, path_of};

// C's PATH_MAX: the bytes of a path, with the 0 that ends it.
pub const PATH_MAX: usize = 4096;

// Whether C can be handed all of a name: at most 4,095 bytes, none of them 0. One that is cut short names another file.
pub fn is_path(name: &[u8]) -> bool
    ensures { result ≡ is_path name.now }
{
    name.len() < PATH_MAX && !name.contains(&0)
}

// The name, and zeros behind it.
pub fn path_of(name: &[u8]) -> [u8; PATH_MAX]
    requires { length name.now < path_room }
    ensures { result ≡ path_of name.now }
{
    let mut path = [0u8; PATH_MAX];
    path[..name.len()].copy_from_slice(name);
    path
}
