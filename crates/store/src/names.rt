// The names of the files beside a box: its path with an ending.
ghost use Rattle.std.specs.Prelude.{◌≡◌, ◌++◌, ◌<◌, take};
ghost use Rattle.io.specs.Counts.{IsPrefixLen};

// The longest path that the system takes, and the 0 that ends it there.
const PATH_MAX: usize = 4096;

// The path with the ending after it, at the start of out: its length, or 0 where there is no room for it and a 0 after it.
fn joined(path: &[u8], ending: &[u8], out: &mut [u8]) -> usize
    ensures { IsPrefixLen result out.new × (0 < result → take result out.new ≡ path.now ++ ending.now) }
{
    let n = path.len() + ending.len();
    if out.len() <= n {
        return 0;
    }
    out[..path.len()].copy_from_slice(path);
    out[path.len()..n].copy_from_slice(ending);
    n
}

// The path with the ending after it, at the start of out: its length, or 0 where that is more than a path can have.
pub fn beside(path: &[u8], ending: &[u8], out: &mut [u8; PATH_MAX]) -> usize
    ensures { IsPrefixLen result out.new × (0 < result → take result out.new ≡ path.now ++ ending.now) }
{
    joined(path, ending, out)
}

// The same with a number at its end.
pub fn beside_numbered(path: &[u8], ending: &[u8], number: u64, out: &mut [u8; PATH_MAX]) -> usize
    ensures { IsPrefixLen result out.new }
{
    let mut front = io::buffer();
    let n = beside(path, ending, &mut front);
    if n == 0 {
        return 0;
    }
    let mut digits = [0u8; 20];
    let k = io::decimal(number, &mut digits);
    beside(&front[..n], &digits[..k], out)
}

// The length of the path's folder with the slash that ends it: 0 where the path has none.
pub fn folder_length(path: &[u8]) -> usize
    ensures { IsPrefixLen result path.now }
{
    path.iter().rposition(|b| *b == b'/').map_or(0, |i| i + 1)
}
