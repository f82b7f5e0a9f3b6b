// Defining, forgetting and finding a user character.
ghost use Rattle.std.specs.Prelude.{◌≡◌};
ghost use Rattle.state.specs.Users.{users_of, no_users, user_at, user_set};

use crate::users::Users;

const FIRST: u8 = 0x20;

impl Users {
    pub(crate) fn new() -> Users
        ensures { users_of result ≡ no_users }
    {
        Users {
            places: [None; 224],
        }
    }

    // The five columns of a user character, if it is defined.
    pub(crate) fn columns(&self, code: u8) -> Option<[u8; 5]>
        ensures { result ≡ user_at (users_of self.now) code }
    {
        if code < FIRST {
            None
        } else {
            self.places[(code - FIRST) as usize]
        }
    }

    // Defines a character, or forgets it.
    pub(crate) fn set(&mut self, code: u8, columns: Option<[u8; 5]>)
        ensures { users_of self.new ≡ user_set (users_of self.old) code columns }
    {
        if code >= FIRST {
            self.places[(code - FIRST) as usize] = columns;
        }
    }
}
