// The name that a request gets, and the DHCID of the request under that name (RFC 4701).
#![tactic(auto)]

ghost use Rattle.std.specs.Prelude.{true, ◌≡◌, ◌∷◌, ◌++◌, ◌+◌, ◌*◌, ◌^◌, ◌≤◌, length};
ghost use Rattle.base.specs.Bytes.{big_endian, overlay};
ghost use Rattle.hash.specs.Sha256.{sha256};
ghost use Rattle.hash.specs.State.{StateOf};
ghost use Rattle.name.specs.Name as names;
ghost use Rattle.message.specs.Request.{Inside, identifier_bytes};
ghost use Rattle.dhcid.specs.Chosen.{no_choice, among, packed_name, name_answer};
ghost use Rattle.dhcid.specs.Handing.{PartOf, HandsOn};
ghost use Rattle.dhcid.specs.Choosing as spec;

use base::Answer;
use base::dhcid::LENGTH;
use base::refusal::{HASH_INPUT_LONG, NO_PROPER_NAME, OUTPUT_SHORT, UNKNOWN_SETTING};
use base::slice::put;
use hash::Sha256;
use message::{Part, Request, refused};
use message4::read4;
use message6::read6;
use name::wire::{LONGEST, is_proper, put_canonical};

// The number of the family: DHCPv4, and DHCPv6.
const V4: u32 = 4;

const V6: u32 = 6;

// The client-name setting: the site's name always, or the client's first.
const SITE_ALWAYS: u32 = 0;

const CLIENT_FIRST: u32 = 1;

// Bit 30 of a place: a part of the site's name.
const FROM_SITE: u32 = 1073741824;

// The most bytes that are hashed.
const MOST_HASHED: usize = 4096;

// RFC 4701, 3.4: the digest type of SHA-256.
const SHA256: u8 = 1;

// Which name is chosen, and where it stands; on a refusal no part.
#[derive(Drop)]
pub struct Chosen {
    // the refusal's number; 0 where a name is chosen
    pub refusal: u32,
    // a part of the site's name; else of the message
    pub from_site: bool,
    pub part: Part,
}

// ---- the request

fn is_known(family: u32, setting: u32) -> bool
    ensures { result ≡ spec.is_known family setting }
{
    ((family == V4) | (family == V6)) & ((setting == SITE_ALWAYS) | (setting == CLIENT_FIRST))
}

// What the message says, whichever family it is of.
fn read(family: u32, setting: u32, message: &[u8]) -> Request
    ensures { result ≡ spec.said family setting message.now }
{
    if !is_known(family, setting) {
        return refused(UNKNOWN_SETTING);
    }
    if family == V4 {
        return read4(message);
    }
    read6(message)
}

// ---- the choice

fn part_of(bytes: &[u8], part: Part) -> &[u8]
    requires { Inside bytes.now part }
    ensures { PartOf bytes.entry part result }
{
    let start = part.start;
    let end = start + part.len;
    &bytes[start..end]
}

fn uses_clients(setting: u32, request: Request, message: &[u8]) -> bool
    requires { request.has_name ≡ true → Inside message.now request.name }
    ensures { result ≡ spec.uses_clients setting message.now request }
{
    if setting != CLIENT_FIRST {
        return false;
    }
    if !request.has_name {
        return false;
    }
    is_proper(part_of(message, request.name))
}

fn no_choice(number: u32) -> Chosen
    ensures { result ≡ no_choice number }
{
    Chosen {
        refusal: number,
        from_site: false,
        part: Part { start: 0, len: 0 },
    }
}

fn by_site(site: &[u8]) -> Chosen
    ensures { result ≡ spec.by_site site.now }
{
    if !is_proper(site) {
        return no_choice(NO_PROPER_NAME);
    }
    Chosen {
        refusal: 0,
        from_site: true,
        part: Part {
            start: 0,
            len: site.len(),
        },
    }
}

// The choice for a request that was read from the message.
fn pick(setting: u32, request: Request, message: &[u8], site: &[u8]) -> Chosen
    requires { request.refusal ≡ 0 → request.has_name ≡ true → Inside message.now request.name }
    ensures { result ≡ spec.chosen_for setting message.now site.now request }
{
    if request.refusal != 0 {
        return no_choice(request.refusal);
    }
    let name = request.name;
    if uses_clients(setting, request, message) {
        return Chosen {
            refusal: 0,
            from_site: false,
            part: name,
        };
    }
    by_site(site)
}

// The name that the request in `message` gets, of DHCPv4 or DHCPv6 as `family` says. Refusals: 12, the message's, 9.
pub fn choose(family: u32, setting: u32, message: &[u8], site: &[u8]) -> Chosen
    ensures { result ≡ spec.choose family setting message.now site.now }
{
    pick(setting, read(family, setting, message), message, site)
}

// The bytes of the chosen name where they stand, uncopied.
fn name_of<'a>(chosen: Chosen, message: &'a [u8], site: &'a [u8]) -> &'a [u8]
    requires { Inside (among chosen.from_site message.now site.now) chosen.part }
    ensures { HandsOn message.entry site.entry chosen result }
{
    if chosen.from_site {
        return part_of(site, chosen.part);
    }
    part_of(message, chosen.part)
}

// The chosen name as a part of the message or of the site's name; no bytes on a refusal, whose number `choose` gives.
pub fn chosen_name<'a>(family: u32, setting: u32, message: &'a [u8], site: &'a [u8]) -> &'a [u8]
    ensures { HandsOn message.entry site.entry (spec.choose family setting message.now site.now) result }
{
    name_of(choose(family, setting, message, site), message, site)
}

// ---- the choice as C gets it

// The source in bits 30 and 31, the start in bits 8 to 29, the length in bits 0 to 7.
fn packed(from_site: bool, part: Part) -> u32
    requires { (part.start ≤ 2048) × (part.len ≤ 255) }
    ensures { result ≡ packed_name from_site part }
{
    let packed = part.start as u32 * 256 + part.len as u32;
    if from_site {
        return FROM_SITE + packed;
    }
    packed
}

// Where the chosen name stands, as one number.
pub fn locate(family: u32, setting: u32, message: &[u8], site: &[u8]) -> Answer
    ensures { result ≡ name_answer (spec.choose family setting message.now site.now) }
{
    let chosen = choose(family, setting, message, site);
    if chosen.refusal != 0 {
        return Answer::Refused {
            number: chosen.refusal,
            offset: 0,
        };
    }
    Answer::Accepted(packed(chosen.from_site, chosen.part))
}

// ---- the DHCID

// The hash of an identifier's first part, which only a hardware address has: to take nothing would cost as much as to take a few bytes.
fn begin_with(head: &[u8]) -> Sha256
    ensures { StateOf head.now result }
{
    let state = Sha256::begin();
    if head.len() == 0 {
        return state;
    }
    state.take(head)
}

// The digest of the request's identifier, taken from the message where it stands, followed by the canonical name.
fn digest_of(request: Request, message: &[u8], name: &[u8]) -> [u8; 32]
    requires { spec.Hashable message.now request name.now }
    ensures { result ≡ sha256 (identifier_bytes message.now request ++ names.canonical name.now) }
{
    let id_head = request.id_head;
    let id = request.id;
    let mut lower = [0u8; LONGEST];
    put_canonical(&mut lower, 0, name);
    begin_with(part_of(message, id_head))
        .take(part_of(message, id))
        .take(&lower[..name.len()])
        .finish()
        .digest()
}

// Writes a DHCID of that type and digest into the first bytes of `out`.
fn put_rdata(id_type: u16, digest: [u8; 32], out: &mut [u8])
    requires { 35 ≤ length out.old }
    ensures { out.new ≡ overlay out.old 0 (big_endian 2 id_type ++ 1 ∷ digest) }
{
    let types = [((id_type >> 8) % 256) as u8, (id_type % 256) as u8, SHA256];
    put(out, 0, &types);
    put(out, 3, &digest);
}

// The request's DHCID under a name. Refusals: 14, 13.
fn put_under(request: Request, message: &[u8], name: &[u8], out: &mut [u8]) -> Answer
    requires { spec.Hashable message.now request name.now }
    ensures { spec.PutsUnder message.now request name.now out.old result out.new }
{
    if MOST_HASHED < request.id_head.len + request.id.len + name.len() {
        return Answer::Refused {
            number: HASH_INPUT_LONG,
            offset: 0,
        };
    }
    if out.len() < LENGTH {
        return Answer::Refused {
            number: OUTPUT_SHORT,
            offset: 0,
        };
    }
    put_rdata(request.id_type, digest_of(request, message, name), out);
    Answer::Accepted(LENGTH as u32)
}

// Writes the DHCID of the request in `message`, under the name that it gets, into the first 35 bytes of `out`, and answers 35. Refusals: those of `choose`, then 14
// and 13; then `out` stays as it was.
pub fn put_dhcid<'a>(
    family: u32,
    setting: u32,
    message: &'a [u8],
    site: &'a [u8],
    out: &mut [u8],
) -> Answer
    ensures { spec.PutsDhcid family setting message.now site.now out.old result out.new }
{
    let request = read(family, setting, message);
    let chosen = pick(setting, request, message, site);
    if chosen.refusal != 0 {
        return Answer::Refused {
            number: chosen.refusal,
            offset: 0,
        };
    }
    put_under(request, message, name_of(chosen, message, site), out)
}
