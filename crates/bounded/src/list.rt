ghost use Rattle.std.specs.Prelude.{◌≡◌, ◌≤◌, length};

// An array with its length beside it: the kernel allocates nothing, and its lists are `Copy`. No `impl Model`: of a `Copy`
// struct it has to give the fields back, and the list forgets what stands past `len`.
/// A list of at most `N` values, held in place: the first `len` of `items`.
#[derive(Copy)]
pub struct Bounded<T: Copy, const N: usize> {
    pub(crate) items: [T; N],
    pub(crate) len: usize,
    ghost few: { (length items ≡ N) × (len ≤ N) },
}
