ghost use Rattle.std.specs.Prelude.{◌≡◌, ℕ, ◌<◌, Some, None, ◌==◌, ◌&&◌, if◌then◌else◌};
ghost use Rattle.schemes.specs.Calls.{enrol_refusal};
ghost use Rattle.schemes.specs.Pages.{Enrolled, Signer, at, public_of};
ghost use Rattle.turns.specs.Refusals.{answer};

use crate::keys::{PUBLIC_LEN, Ready, refusal};
use crate::place::{KEYS, Message, Place, TURNS};
use turns::{Reason, Refusal};

// What a scheme keeps of a key: its public key, of 32 bytes, and something for each of its turns.
#[derive(Clone, Copy)]
struct Page<T: Copy> {
    public: Option<[u8; PUBLIC_LEN]>,
    turns: [T; TURNS],
}

// A page for each key.
#[derive(Drop)]
pub struct Pages<T: Copy> {
    pages: [Page<T>; KEYS],
}

impl<T: Copy> Pages<T> {
    // No key has a public key.
    pub fn new(blank: T) -> Pages<T>
        ensures publics { (key : ℕ) → public_of result key ≡ None }
        ensures turns { (key turn : ℕ) → at blank result key turn ≡ blank }
    {
        let page = Page {
            public: None,
            turns: [blank; TURNS],
        };
        Pages {
            pages: [page; KEYS],
        }
    }

    // The public key of a key.
    pub fn get(&self, key: u8) -> Option<[u8; PUBLIC_LEN]>
        ensures { result ≡ public_of self.now key }
    {
        self.pages.get(usize::from(key))?.public
    }

    // What stands for a turn of a key.
    pub fn at(&self, place: Place) -> T
        ensures { (d : T) → result ≡ at d self.now place.key place.turn }
    {
        let page = &self.pages[usize::from(place.key)];
        page.turns[usize::from(place.turn)]
    }

    // Gives a key its public key, and a page of blanks.
    #[tactic(auto, unfolding(crate::specs::Calls::enrol_refusal))]
    pub fn enrol(&mut self, key: u8, public: &[u8], blank: T) -> Result<(), Refusal>
        ensures answer { result ≡ answer (enrol_refusal 32 (public_of self.old key) key public.now) tt }
        ensures after { Enrolled blank key public.now result self.old self.new }
    {
        let (true, Some(public)) = (usize::from(key) < KEYS, public.as_array()) else {
            return Err(refusal(Reason::Argument, key));
        };
        if self.get(key).is_some() {
            return Err(refusal(Reason::AlreadyEnrolled, key));
        }
        self.begin_page(key, *public, blank);
        Ok(())
    }

    fn begin_page(&mut self, key: u8, public: [u8; PUBLIC_LEN], blank: T)
        requires { key < 16 }
        ensures publics { (k : ℕ) → public_of self.new k ≡ (if k == key then Some public else public_of self.old k) }
        ensures turns { (k t : ℕ) → at blank self.new k t ≡ (if k == key then blank else at blank self.old k t) }
    {
        self.pages[usize::from(key)] = Page {
            public: Some(public),
            turns: [blank; TURNS],
        };
    }

    // Puts something for a turn of a key.
    pub fn put(&mut self, place: Place, entry: T)
        ensures publics { (k : ℕ) → public_of self.new k ≡ public_of self.old k }
        ensures turns { (d : T) (k t : ℕ) → at d self.new k t ≡ (if k == place.key && t == place.turn then entry else at d self.old k t) }
    {
        let page = &mut self.pages[usize::from(place.key)];
        page.turns[usize::from(place.turn)] = entry;
    }

    // A signing that nothing but its secret or a spent turn can speak against.
    pub fn signer<'d, 's>(
        &self,
        message: &Message<'d>,
        secret: &'s [u8],
        signature_len: usize,
        room: usize,
    ) -> Result<Ready<'d, 's>, Refusal>
        ensures { Signer signature_len (public_of self.now message.now.key) message.now.key message.now.turn message.now.digest.now secret.now room result }
    {
        let (Some((place, digest)), Some(secret)) = (message.parts(), secret.as_array()) else {
            return Err(refusal(Reason::Argument, message.key));
        };
        if room < signature_len {
            return Err(refusal(Reason::Memory, message.key));
        }
        let Some(public) = self.get(message.key) else {
            return Err(refusal(Reason::NotEnrolled, message.key));
        };
        Ok(Ready {
            place,
            digest,
            secret,
            public,
        })
    }
}
