//! Laws of books of servers. Each is a call that does nothing, and its contract is the law.
ghost use Rattle.std.specs.Prelude.{◌≡◌, ◌+◌, ◌^◌, ◌⊎◌, ℕ, List, [], ◌∷◌, true};
ghost use Rattle.server_book.specs.declared.address.Address.{Address};
ghost use Rattle.server_book.specs.declared.book.TheConstants.{MOST_WAITING, MOST_WAITING_FOR_SERVER};
ghost use Rattle.server_book.specs.declared.heard.Heard.TheVariants.{Connect, Waits};
ghost use Rattle.server_book.specs.declared.server.TheConstants.{LAST_LOOK, LOOKS_OF_SECOND, MOST_DOUBLINGS};
ghost use Rattle.server_book.specs.Books.{Book, after_heard, answer_to};
ghost use Rattle.server_book.specs.Names.{is_among};
ghost use Rattle.server_book.specs.Runs.{Call, IsLonger, NoneEnds, address_at, is_connecting_at, is_fixed_at, is_held, names_for, run};

/// The numbers of books of servers.
pub fn numbers_are_these()
    ensures last_look { LAST_LOOK + 1 ≡ 2 ^ 64 }
    ensures second { LOOKS_OF_SECOND ≡ 32 }
    ensures doublings { MOST_DOUBLINGS ≡ 8 }
    ensures of_server { MOST_WAITING_FOR_SERVER ≡ 256 }
    ensures in_all { MOST_WAITING ≡ 16384 }
{}

/// A server whose name waits stays connecting, and the names that wait for it stay, in their order, whatever is called, until its
/// connection stands or couldn't be made.
pub fn names_that_wait_are_kept()
    ensures connecting { (number : ℕ) (calls : List Call) (book : Book) → is_connecting_at number book ≡ true → NoneEnds number calls
        → is_connecting_at number (run calls book) ≡ true }
    ensures names { (number : ℕ) (calls : List Call) (book : Book) → is_connecting_at number book ≡ true → NoneEnds number calls
        → IsLonger (names_for number book) (names_for number (run calls book)) }
{}

/// A name that was told to wait for a server is handed out with its connection, unless that couldn't be made before.
pub fn a_name_that_waits_is_handed_out()
    ensures { (address : Address) (name : List ℕ) (look number : ℕ) (calls : List Call) (book : Book)
        → (answer_to address name look book ≡ Waits number) ⊎ (answer_to address name look book ≡ Connect number) → NoneEnds number calls
        → is_among (names_for number (run calls (after_heard address name look book))) name ≡ true }
{}

/// Whatever is called, the number of a server that stands, is connecting or is known for good is given to no other address.
pub fn a_number_that_is_held_stays()
    ensures { (number : ℕ) (call : Call) (book : Book) → is_held number book ≡ true
        → address_at number (run (call ∷ []) book) ≡ address_at number book }
{}

/// A server that is known for good stays so, with its number and its address, whatever is called.
pub fn fixed_servers_stay()
    ensures fixed { (number : ℕ) (calls : List Call) (book : Book) → is_fixed_at number book ≡ true → is_fixed_at number (run calls book) ≡ true }
    ensures address { (number : ℕ) (calls : List Call) (book : Book) → is_fixed_at number book ≡ true
        → address_at number (run calls book) ≡ address_at number book }
{}
