ghost use Rattle.std.specs.Prelude.{◌≡◌, ℕ, ◌≤◌, length, Ok};
ghost use Rattle.headers.specs.Heads.{header_bytes, kind_agreed, header_at, header_outcome};
ghost use Rattle.kinds.specs.Sizes.{header_size};
ghost use Rattle.layout.specs.Versions.{width};

use super::header::Header;
use bits::Flags;
use boxes::edges::Edges;
use kinds::kind::Kind;
use layout::version::Version;
use refusal::Refusal;

// How many bytes a header has, by the version that it says.
fn bytes_needed(version: Option<Version>) -> usize
    ensures { result ≡ header_bytes version }
{
    version.map_or(48, |v| v.sizes().header)
}

// The kind that a header says, where it is the one wanted.
fn agreed(wanted: Option<Kind>, said: Option<Kind>) -> Option<Kind>
    ensures { result ≡ kind_agreed wanted said }
{
    said.filter(|k| wanted.is_some_and(|w| w.is(*k)))
}

// The fields of a header that is whole.
fn fields(file: &[u8], kind: Kind, version: Version) -> Result<Header, Refusal>
    requires { header_size (width version) ≤ length file.now }
    ensures { result ≡ Ok (header_at file.now kind version) }
{
    let edges = Edges::read(file, 8)?;
    let count = version.number(file, 40)?;
    let reserved = file[40 + version.sizes().number];
    Ok(Header {
        kind,
        version,
        flags: Flags { byte: file[7] },
        edges,
        count,
        reserved,
    })
}

impl Header {
    /// The header of a file, of the kind wanted; with none wanted, no file fits.
    /// 1 when it passes the end, then 4 for another kind, then 5 for a version that is neither 1.1 nor 2.0.
    #[tactic(auto, using(refusal::proofs::Options::ok_of_ok_or))]
    pub fn read(file: &[u8], wanted: Option<Kind>) -> Result<Header, Refusal>
        ensures { result ≡ header_outcome file.now wanted }
    {
        let [k0, k1, k2, v0, v1, v2, v3, _rest @ ..] = file else {
            return Err(Refusal::PastEnd);
        };
        let said = Version::try_from([*v0, *v1, *v2, *v3]);
        if file.len() < bytes_needed(said.ok()) {
            return Err(Refusal::PastEnd);
        }
        let named = Kind::try_from([*k0, *k1, *k2]);
        let kind = agreed(wanted, named.ok()).ok_or(Refusal::OtherKind)?;
        fields(file, kind, said?)
    }
}
